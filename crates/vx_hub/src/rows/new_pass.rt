ghost use Rattle.std.specs.Prelude.{◌≡◌, ◌+◌, ◌-◌, ◌^◌, ◌≤◌, min};

use vx_data::PassNo;

/// Makes a pass, whose number is how many there were.
pub fn new_pass(passes: &mut u64) -> PassNo
    ensures made { result.0 ≡ passes.old }
    ensures stay { passes.old ≤ passes.new }
    ensures more { passes.new ≡ min (passes.old + 1) (2 ^ 64 - 1) }
{
    let pass = PassNo(*passes);
    *passes = passes.saturating_add(1);
    pass
}
