//! Images of programs, and the step lines that load one into a unit.
//!
//! - `load_on` (`load`): `recall load`;
//! - `Image`: the bytes of a program as they lie in memory from address 0 on, with the header in front;
//! - `lay_out` (`elf`): those bytes of an ELF file, as a compiler writes it;
//! - `Unfit`: why a file has no image.
//!
//! What a unit makes of the texts is said in `programs`. That these lines bring the file's bytes is read, and tested.
//!
//! For `host_cli`, which has the words. A caller:
//!
//! ```
//! load_on(rt, &told, &load)
//! ```
#![tactic(auto)]

mod elf;
mod image;
mod load;
mod unfit;

pub use image::Image;
pub use load::load_on;
pub use unfit::Unfit;
