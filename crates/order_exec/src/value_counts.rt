//! How many values come before another.
ghost use Rattle.std.specs.Prelude.{◌≡◌, ◌≤◌, filter, length};
ghost use Rattle.std.specs.Ordering.{is_lt};
ghost use Rattle.logical_plan.specs.Groups.{datum_cmp};
ghost use Rattle.logical_plan.specs.Ordered.{below};
ghost use Rattle.order_exec.specs.Inner.Ranked.{AreInOrder};

use crate::keys::compare_values;
use cell_values::Datum;

fn comes_before(a: &Datum, b: &Datum) -> bool
    ensures { result ≡ is_lt (datum_cmp a.now b.now) }
{
    compare_values(a, b).is_lt()
}

/// How many of some values in their order come before another.
pub(crate) fn count_below(values: &[Datum], value: &Datum) -> usize
    requires { AreInOrder values.now }
    ensures { result ≡ below value.now values.now }
{
    let mut start = 0;
    let mut end = values.len();
    while start < end {
        let middle = start + (end - start) / 2;
        if comes_before(&values[middle], value) {
            start = middle + 1;
        } else {
            end = middle;
        }
    }
    start
}
