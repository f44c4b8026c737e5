//! A history's picture, as one SVG document, drawn from its signs. Its text is exactly that of these signs.
#![tactic(auto)]

mod glyph;
mod lane_lines;
mod marks;
mod page;
mod picture;
mod style;
mod text;

pub use glyph::{Glyph, Key};
pub use picture::{Frame, print_picture};
pub use text::Text;
