// The records at a point of a meter map.
ghost use Rattle.problems.specs.Problems.{meter_point};
ghost use Rattle.problems.specs.Passes.{point_of, meter_head, records_at};
ghost use Rattle.problems.specs.Records.{IsReady, Adds};

use crate::records::{Code, Records};
use meter::bars::good_denominator;

// The records of the map, at its first point.
fn head(records: &mut Records, n: u32, index: u32, bar: u32)
    requires { IsReady records.old (meter_head n index bar) }
    ensures { Adds records.old (meter_head n index bar) records.new }
{
    if index != 0 {
        return;
    }
    records.note(256 < n, Code::ManyMeters, 0, n);
    records.note(bar != 0, Code::LaterBar, 0, 0);
}

// The records of a point.
fn own(records: &mut Records, index: u32, low: u64, bar: u32, numerator: u32, denominator: u32)
    requires { IsReady records.old (meter_point index low (point_of bar numerator denominator)) }
    ensures { Adds records.old (meter_point index low (point_of bar numerator denominator)) records.new }
{
    records.note(numerator == 0, Code::NoNumerator, index, 0);
    records.note(
        !good_denominator(denominator),
        Code::BadDenominator,
        index,
        denominator,
    );
    records.note((bar as u64) < low, Code::LowBar, index, 0);
}

// All records at a point of a map of n: `low` is one more than the bar before.
pub fn records_at(
    records: &mut Records,
    n: u32,
    index: u32,
    low: u64,
    bar: u32,
    numerator: u32,
    denominator: u32,
)
    requires { IsReady records.old (records_at n index low (point_of bar numerator denominator)) }
    ensures { Adds records.old (records_at n index low (point_of bar numerator denominator)) records.new }
{
    head(records, n, index, bar);
    own(records, index, low, bar, numerator, denominator);
}
