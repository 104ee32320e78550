// Words and limits that several layers share.
#![tactic(auto)]

ghost use Rattle.std.specs.Prelude.{◌≡◌};
ghost use Rattle.terms.specs.Limits.{is_price, is_size, is_owner, is_maker};

pub mod by_side;
pub mod side;

pub use by_side::BySide;
pub use side::{NoSide, Side};

// The last minute that a call may name; above it every hour is closed.
pub const LAST_MINUTE: u32 = 9_999_999;

pub const MINUTES_A_DAY: u32 = 1_440;

// A call is refused on a tape of fewer lines.
pub const LEAST_ROOM: usize = 1_024;

// A call is refused once the moment has come to this.
pub const MOMENT_LIMIT: u32 = 4_000_000;

// The most bytes of a day file.
pub const LONGEST_FILE: usize = 65_536;

// Makers are numbered from 1 to this.
pub const MAKERS: usize = 16;

// Prices are whole steps from 1 to this.
pub const LAST_PRICE: u32 = 9_999_999;

// Sizes are whole lots from 1 to this.
pub const LARGEST_SIZE: u32 = 1_000_000;

// Members are numbered from 1 to this.
pub const LAST_OWNER: u32 = 65_535;

// Four tests of one line each: one with the range as a parameter would make each caller say it.
pub fn is_price(number: u32) -> bool
    ensures { result ≡ is_price number }
{
    (1..=LAST_PRICE).contains(&number)
}

pub fn is_size(number: u32) -> bool
    ensures { result ≡ is_size number }
{
    (1..=LARGEST_SIZE).contains(&number)
}

pub fn is_owner(number: u32) -> bool
    ensures { result ≡ is_owner number }
{
    (1..=LAST_OWNER).contains(&number)
}

pub fn is_maker(number: u32) -> bool
    ensures { result ≡ is_maker number }
{
    (1..=MAKERS).contains(&(number as usize))
}
