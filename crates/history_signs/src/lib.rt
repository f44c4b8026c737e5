//! Which signs, bars and arrows a history's picture has: a lane for each actor that occurs, and for each item that is chosen its
//! sign, with the bar that it opens and the earlier item that shows it.
#![tactic(auto)]

mod bar;
mod chosen;
mod earlier;
mod lane;
mod shown;
mod sign;

pub use bar::{Bar, BarKind};
pub use chosen::{Chosen, choose_about, choose_part};
pub use earlier::{EarlierBar, earlier_bars};
pub use lane::lanes_of;
pub use sign::{Link, Sign, signs_of};
