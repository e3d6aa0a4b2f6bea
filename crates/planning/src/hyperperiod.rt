//! The hyperperiod: the least common multiple of all periods, after which the windows come again.

ghost use Rattle.std.specs.Prelude.{◌≡◌, ℕ, ◌<◌, ◌≤◌, length, is_ok, Ok, Err, Decides};
ghost use Rattle.std.specs.List.{AllByRecursion};
ghost use Rattle.model.specs.declared.fault.Fault.TheVariants.{HyperperiodTooLong};
ghost use Rattle.planning.specs.Hyperperiods.{hyperperiod as hyperperiod_of, passes_at, limit, IsHyperperiod, PassesFirst};
ghost use Rattle.planning.specs.Plans.{refuse};

use model::fault::Fault;
use model::line::Line;
use windows::euclid::lcm;

const LIMIT: u64 = 1_000_000;

// Stops at the first line that passes the limit, so that no multiple overflows. A `try_fold` is no plainer, since the
// refusal names the line. The lines are a slice with its bound: both a sheet and a plan lend theirs.
pub(crate) fn hyperperiod(lines: &[Line]) -> Result<u32, Fault>
    requires { length lines.now ≤ 24 }
    ensures value { result ≡ refuse (passes_at 1 1 lines.now) HyperperiodTooLong (Ok (hyperperiod_of lines.now)) }
    ensures least { IsHyperperiod lines.now (hyperperiod_of lines.now) }
    ensures within { AllByRecursion (λ l. 0 < l.period) lines.now → Decides (is_ok result) (hyperperiod_of lines.now ≤ limit) }
    ensures first { (n : ℕ) → result ≡ Err (HyperperiodTooLong n) → PassesFirst lines.now n }
{
    let mut h = 1;
    for (i, line) in lines.iter().enumerate() {
        let multiple = lcm(h, line.period);
        if multiple > LIMIT {
            return Err(Fault::HyperperiodTooLong { line: i as u32 + 1 });
        }
        h = multiple as u32;
    }
    Ok(h)
}
