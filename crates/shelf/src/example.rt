// What is asked of a shelf between calls can be met.
ghost use Rattle.shelf.specs.Example.{ExampleIsWhole};

pub fn example_is_whole()
    ensures { ExampleIsWhole }
{}
