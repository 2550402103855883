// What a refusal names: its number, the layer that refuses, the line and the book's code.
ghost use Rattle.std.specs.Prelude.{◌≡◌, ℕ};
ghost use Rattle.terms.specs.Faults.{layer_of};
ghost use Rattle.terms.specs.declared.fault.Layer.{Layer};
ghost use Rattle.terms.specs.declared.fault.Refusal.{Refusal};

#[derive(Clone, Copy, Debug, PartialEq, Eq)]
pub enum Layer {
    Book,
    Carrier,
    Site,
    Sitting,
}

// The layer of a refusal with this number.
impl From<u32> for Layer {
    ghost from_gives = { λ number layer. layer ≡ layer_of number };

    fn from(number: u32) -> Layer {
        match number {
            11 => Layer::Book,
            15 | 16 => Layer::Carrier,
            17 | 18 | 19 => Layer::Site,
            _ => Layer::Sitting,
        }
    }
}

// The refusal's number, the line that it names (0: none) and the book's code (0 unless the book declined).
#[derive(Clone, Copy, Debug, PartialEq, Eq)]
pub struct Refusal {
    pub number: u32,
    pub line: u32,
    pub code: u32,
}

impl Refusal {
    // A refusal that names no line and no code.
    pub fn plain(number: u32) -> Refusal
        ensures { result ≡ record { number = number; line = 0; code = 0 } }
    {
        Refusal {
            number,
            line: 0,
            code: 0,
        }
    }
}

// A refusal of any layer. `told` says of each of its cases which number, line and code belong to it.
pub trait Fault {
    ghost told: { Self → Refusal };

    fn refusal(&self) -> Refusal
        ensures { result ≡ told self.now };

    fn number(&self) -> u32
        ensures { result ≡ (told self.now).number }
    {
        self.refusal().number
    }

    // The line for 8 to 10 at a start, else 0.
    fn line(&self) -> u32
        ensures { result ≡ (told self.now).line }
    {
        self.refusal().line
    }

    // The book's code for 11, else 0.
    fn code(&self) -> u32
        ensures { result ≡ (told self.now).code }
    {
        self.refusal().code
    }

    fn layer(&self) -> Layer
        ensures { result ≡ layer_of (told self.now).number }
    {
        Layer::from(self.number())
    }
}
