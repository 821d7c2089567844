//! Loading an application: its places, its row, its marks, and the bytes of its code and of its region.
//!
//! It stands on places and marks (`region_table`), on the rows of the kernel (`kernel_tables`) and on the definitions of placed
//! bytes (`load_model`). `load` answers the application's number, or the first cause that there is no room for it, and
//! `specs/Loading.antt` says what it leaves. A relocation adds to its word, modulo 65,536: CODE the code's address, DATA and LO the
//! region's, HI the address behind the region. Each byte is written once, and no call takes memory.
//!
//! `load` stands on memory that is settled, and leaves it so; memory that `clear` begins with is (`laws`). `put_module` loads a
//! module without its functions, and `loaded` any object with any marks: it is what both do.
#![tactic(auto)]

pub mod laws;
mod loading;
mod rows;
mod sections;

pub use code_model::marks::Marks;
pub use loading::{load, loaded, put_module};
pub use region_table::{NoRoom, Regions};
