//! What the code of a node's boot stands on: the memory that it holds while objects are placed and threads start.

ghost use Rattle.node_model.specs.BootCode.{
  BeginningLaw,
  BootBeginsLaw,
  BootGoesOnLaw,
  BootRefusesLaw,
  BootStandsLaw,
  FirstSeenLaw,
  LoadedOwnedLaw,
  SeenLoadedLaw,
};

use code_laws::named_units;
use load_model::{image_lengths, images_are_bytes};

/// A cleared memory shows the system with nothing in it.
pub fn first_is_seen()
    ensures { FirstSeenLaw }
{}

/// Behind loading an object memory shows the system that has it.
pub fn loaded_is_seen()
    ensures { SeenLoadedLaw }
{
    image_lengths();
    images_are_bytes();
    named_units();
}

/// And the domains are those of the objects.
pub fn loaded_is_owned()
    ensures { LoadedOwnedLaw }
{
    image_lengths();
    images_are_bytes();
    named_units();
}

/// What holds while objects are placed: at first, and where there is no room for one.
pub fn boot_begins()
    ensures begins { BootBeginsLaw }
    ensures refuses { BootRefusesLaw }
{}

/// It goes on with each object that is loaded.
pub fn boot_goes_on()
    ensures { BootGoesOnLaw }
{
    image_lengths();
    images_are_bytes();
    named_units();
}

/// Threads may start one after another, where the application's row is used.
pub fn threads_begin()
    ensures { BeginningLaw }
{}

/// At the end of boot the node stands for the booted system, which is sound.
pub fn boot_stands()
    ensures { BootStandsLaw }
{}
