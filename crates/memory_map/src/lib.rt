// Theorems on the memory map of an accepted program. The functions carry them as their contracts.
#![tactic(auto)]

ghost use Rattle.memory_map.specs.EmittedImage.{EmittedImage};
ghost use Rattle.memory_map.specs.MapLaws.{MapLaws};

// What holds of every accepted program's pools, map and image.
pub fn map_laws()
    ensures { MapLaws }
{}

// Emission in the order of the code gives the image of the map.
pub fn emitted_image()
    ensures { EmittedImage }
{}
