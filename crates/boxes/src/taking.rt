// Whoever is handed the pieces of boxes, one after another.
ghost use Rattle.std.specs.Prelude.{◌≡◌};
ghost use Rattle.ranges.specs.declared.shapes.WeightedBox.{WeightedBox};

use ranges::WeightedBox;

// Kept as a trait: its ghost member is the step of a fold, where a closure's contract would speak of a chain of calls instead.
pub(crate) trait Taker {
    ghost taken: { Self → WeightedBox → Self };

    fn take(&mut self, piece: WeightedBox)
        ensures { self.new ≡ taken self.old piece };
}
