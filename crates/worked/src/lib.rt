// The worked examples: figures that a reader can check by hand, in one list, and one public function that asserts all
// of them. A new example is one more entry of the list; a new kind of example is one more case of `Example`, with what
// it asserts as one more line of `Holds`. The crate uses the definitions that the examples speak of.
#![tactic(auto)]

ghost use Rattle.std.specs.Prelude.{◌≡◌, length};
ghost use Rattle.std.specs.List.{AllByRecursion};
ghost use Rattle.worked.specs.Examples.{Holds, examples};

const EXAMPLES: usize = 10;

// How many worked examples there are. Each of them holds.
pub fn worked_examples() -> usize
    ensures hold { AllByRecursion Holds examples }
    ensures count { result ≡ length examples }
{
    EXAMPLES
}

#[cfg(test)]
mod tests;
