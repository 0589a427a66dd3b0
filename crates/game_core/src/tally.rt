/// What a solver counted: the cuts, the offers and the rounds.
#[derive(Clone, Copy, PartialEq, Eq)]
pub struct Tally {
    pub cuts: u64,
    pub offers: u64,
    pub rounds: u32,
}
