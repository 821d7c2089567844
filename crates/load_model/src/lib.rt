//! A placed object, as definitions: the bytes of its relocated code and of its region, its places, and its rows.
//!
//! `specs/Domains.antt` has a placed object and what each kind of relocation adds, `specs/Images.antt` the bytes of its code and of
//! its region, and `specs/Standing.antt` what a memory with these bytes has. `specs/Loading.antt` says where an object is placed,
//! and which kernel and which memory have it then. The laws are functions that do nothing. It stands on objects as data
//! (`code_model`), on places (`place_model`), on the kernel (`kernel_model`) and on the bytes of `flat_mem`.
#![tactic(auto)]

ghost use Rattle.std.specs.Prelude.{◌≡◌, ℕ, ◌-◌, ◌/◌, ◌%◌, ◌<◌, ◌≤◌, length, false, slice_index};
ghost use Rattle.std.specs.List.{flat_map};
ghost use Rattle.flat_mem.specs.Bytes.{word_bytes};
ghost use Rattle.code_model.specs.declared.object.Object.{Object};
ghost use Rattle.load_model.specs.Domains.{Domain, code_length, region_length};
ghost use Rattle.load_model.specs.Images.{code_image, region_image, placed_words};
ghost use Rattle.load_model.specs.Laws.{PlacedLaw, LoadedLaw, TablesFirstLaw, TablesLastLaw};
ghost use Rattle.load_model.specs.Standing.{CodeImageLaw, RegionImageLaw};

use kernel_model::laws::outside_bytes;

/// The code's image is as long as the code, and the region's as the region, where the initialised bytes fit.
pub fn image_lengths()
    ensures code { (d : Domain) → length (code_image d) ≡ code_length d.object }
    ensures region { (d : Domain) → length d.object.init ≤ d.hi - d.lo → length (region_image d) ≡ d.hi - d.lo }
{}

/// The images are bytes.
pub fn images_are_bytes()
    ensures code { (d : Domain) (k : ℕ) → slice_index (code_image d) k < 256 }
    ensures region { (d : Domain) (k : ℕ) → slice_index (region_image d) k < 256 }
{}

/// Where the bytes of code are its image, its words stand: those without a relocation as they are, and the relocated ones plus what
/// their kind adds.
pub fn code_image_stands()
    ensures { CodeImageLaw }
{}

/// Where the bytes of a region are its image, the initialised bytes stand, relocated, and the rest is 0.
pub fn region_image_stands()
    ensures { RegionImageLaw }
{}

/// A region of whole words is the words of the initialised bytes, of which those behind the last one are 0.
pub fn region_is_words()
    ensures { (d : Domain) → length d.object.init ≤ d.hi - d.lo → (d.hi - d.lo) % 2 ≡ 0
        → region_image d ≡ flat_map word_bytes (placed_words d false ((d.hi - d.lo) / 2)) }
{}

/// A region has an even number of bytes.
pub fn regions_are_even()
    ensures { (o : Object) → region_length o % 2 ≡ 0 }
{}

/// A settled kernel stays settled where an object is loaded at the places that it gets; so it does with a module's row alone.
pub fn loaded_is_settled()
    ensures row { PlacedLaw }
    ensures whole { LoadedLaw }
{}

/// Marks, code and region are written beside the tables: an object is loaded with a kernel that is written before them, or behind.
pub fn tables_stand_apart()
    ensures first { TablesFirstLaw }
    ensures last { TablesLastLaw }
{
    outside_bytes();
}
