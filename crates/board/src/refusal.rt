// Why a board refuses a quote, or a size that is asked of one.
#[derive(Clone, Copy, Debug, PartialEq, Eq)]
pub enum BoardRefusal {
    NotAdmitted,
    NoSize,
    NoQuote,
    TooLarge,
}
