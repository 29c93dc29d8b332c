//! A handler whose units run programs of the machine of `riscv`: any C, Rust or Zig compiler for RV32IM makes one.
//!
//! - `Programs`: the handler. Its kinds are those of the sample handler, which mean what they mean there, and
//!   `rv32-1`, whose units run programs. The number in the name is that of the calling convention below, which never
//!   changes under it;
//! - `State`: what a unit keeps: a number, as the sample handler's units have, or a `Process`.
//!
//! **Loading.** A program comes to its unit as texts from outside, so that it is logged, replayed and killed like
//! everything else. `+` and base64 brings bytes of its image, and `=` and base64 the last of them. An image begins
//! with the bytes `RV1` and 1, and has 258,048 bytes at most. When it is whole, it is put over the memory from
//! address 0 on. One that can't be taken is dropped, and `bad base64`, `image too large` or `bad image` is put out. A
//! unit that has a program takes another one in the same way: an image that begins with its header is told from a
//! text for the program, and until it is whole the old program runs. What the old one left in the memory stays, but
//! for where the image lies.
//!
//! **A turn.** Each other text is put into the memory at 0x3f000, and the program runs from address 4 until it
//! returns. The memory that it leaves is the state; registers don't survive a turn. `a0` is the address of the text,
//! `a1` its length, `a2` who sent it (0xffffffff for outside, else the unit), `a3` the unit's own number, `a4` how
//! many units there were when it was opened; `sp` is the end of the memory below the text; `ra` is where the turn
//! ends. So `void handle(const char *text, unsigned length, int source, unsigned unit, unsigned home)` at address 4
//! is a handler.
//!
//! | `ecall` with `a7` | does |
//! |---|---|
//! | 1 | puts out the text at `a0` of length `a1` |
//! | 2 | sends to unit `a0` the text at `a1` of length `a2` |
//! | 3 | ends the turn: the state is as before, nothing is sent, and the text at `a0` of length `a1` alone is put out |
//!
//! What a program may not do traps: the state stays, nothing is sent, and one text is put out, `trap: REASON at
//! ADDRESS`. A turn has 1,000,000 instructions, and 64 texts.
//!
//! **As bytes.** `Programs` is `Portable`: its states can be written as bytes and read again. Of a memory the pages are
//! written that aren't zeros, 4 KiB each, and a byte for each other page (`specs/Coding`).
//!
//! `specs/Programs` says what all of it means.
#![tactic(auto)]

mod course;
mod layout;
mod loading;
mod memories;
mod portable;
mod process;
mod programs;
mod state;
mod trap;
mod turns;

pub use process::Process;
pub use programs::Programs;
pub use state::State;
