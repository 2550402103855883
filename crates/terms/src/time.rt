// Virtual times: counter × 8 + site.
ghost use Rattle.std.specs.Prelude.{◌≡◌, IfOk, Some};
ghost use Rattle.std.specs.Result.{result_ok};
ghost use Rattle.terms.specs.Times.{parts, whole};

// A virtual time in its two parts.
#[derive(Clone, Copy, Debug, PartialEq, Eq)]
pub struct VirtualTime {
    pub counter: u32,
    pub site: u32,
}

// The two parts of a time as it is stored and sent, which make it up again.
impl From<u32> for VirtualTime {
    ghost from_gives = { λ time v. (v ≡ parts time) × (whole v ≡ Some time) };

    fn from(time: u32) -> VirtualTime {
        VirtualTime {
            counter: time / 8,
            site: time % 8,
        }
    }
}

// The site is not below 8, or the time passes 32 bits.
#[derive(Clone, Copy, Debug, PartialEq, Eq)]
pub struct NoTime;

// The time with these parts, which it has again.
impl TryFrom<VirtualTime> for u32 {
    type Error = NoTime;

    ghost try_from_gives = { λ v time. (result_ok time ≡ whole v) × IfOk time (λ t. parts t ≡ v) };

    fn try_from(parts: VirtualTime) -> Result<u32, NoTime> {
        if 8 <= parts.site {
            return Err(NoTime);
        }
        let first = parts.counter.checked_mul(8).ok_or(NoTime)?;
        first.checked_add(parts.site).ok_or(NoTime)
    }
}
