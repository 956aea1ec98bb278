// A literal that is in no row.
ghost use Rattle.std.specs.Prelude.{ℕ, ◌≡◌, true};
ghost use Rattle.edition.specs.declared.Edition.{Edition};
ghost use Rattle.literals.specs.Literals.{operation_of};
ghost use Rattle.literals.specs.Reports.{not_in_table};
ghost use Rattle.literals.specs.Operate.{operate_of, outcome};
ghost use Rattle.slots.specs.Numbers.{number_of};

use slots::Report;

pub fn unknown(stack: &[u8], depth: usize) -> Report
    ensures { (ed : Edition) (l : ℕ) → not_in_table (operation_of l) ≡ true → operate_of ed stack.now depth l ≡ (outcome (number_of result) depth, stack.now) }
{
    if slots::over_limits(stack, depth) {
        return Report::OverLimits;
    }
    Report::UnknownLiteral
}
