// The fields of a span.
ghost use Rattle.std.specs.Prelude.{◌≡◌};
ghost use Rattle.question.specs.Questions.{in_span};

// Whether field k lies in the span of count fields from first. The tops of a span are nothing to a question, so the two numbers
// come alone.
#[tactic(auto, unfolding(crate::specs::Questions::in_span))]
pub fn in_span(first: u8, count: u8, k: u8) -> bool
    ensures { result ≡ in_span first count k }
{
    first <= k && k - first < count
}
