// The first two promises are not empty: a run that meets their premises.
ghost use Rattle.enough.specs.Example.{BlamelessStands, ExampleStands};

// Enough was handed in.
pub fn example_stands()
    ensures { ExampleStands }
{}

// A member keeps to the rules.
pub fn blameless_stands()
    ensures { BlamelessStands }
{}
