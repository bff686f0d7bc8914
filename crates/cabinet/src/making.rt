ghost use Rattle.std.specs.Prelude.{◌≡◌, IfOk};
ghost use Rattle.refusal.specs.Replies.{reply};
ghost use Rattle.cabinet.specs.Calls.{making};
ghost use Rattle.cabinet.specs.Standing.{Begins};

use crate::cabinets::Cabinet;
use belief::Span;
use refusal::Refusal;

impl Cabinet {
    // A cabinet with so many fields, their tops and the sealed sheet. A field that it lacks has top 0. A table tests its sheets
    // in the like way, but a shared function would be longer than the two chains.
    pub fn make(count: u8, tops: [u8; 4], sheet: [u8; 4]) -> Result<Cabinet, Refusal>
        ensures result { reply result ≡ making count tops sheet }
        ensures begins { IfOk result Begins }
    {
        Span::make(0, count, tops)?;
        if sheet
            .iter()
            .zip(tops.iter())
            .any(|(value, top)| value > top)
        {
            return Err(Refusal::Value);
        }
        Ok(Cabinet {
            sheet,
            count,
            tops,
            used: 0,
        })
    }
}
