// Numbers that name no case. Each enum tells its numbers by two matches, one each way: a trait over a list of its cases
// would say no less.

// A number that no mode, kind or outcome has.
#[derive(Clone, Copy, Debug, PartialEq, Eq)]
pub struct UnknownNumber {
    pub number: u32,
}
