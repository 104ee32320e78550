// Why a book refuses a change.
#[derive(Clone, Copy, Debug, PartialEq, Eq)]
pub enum BookRefusal {
    Full,
    NumberLive,
    NoSize,
    NotLive,
    TooLarge,
    InForce,
}
