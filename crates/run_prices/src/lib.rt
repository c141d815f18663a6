// What a run costs by its moves, in cents (document 02, E13).
#![tactic(auto)]

ghost use Rattle.std.specs.Prelude.{◌≡◌, ◌≤◌};
ghost use Rattle.run_prices.specs.Price.{price};

// A run costs 1,200 cents and 35 for each started hundred moves; with the option 15 percent more, a part of a cent counting as a whole one.
pub fn price(option: bool, moves: usize) -> usize
    requires { moves ≤ 4096 }
    ensures { result ≡ price option moves }
{
    let sum = 1200 + 35 * ((moves + 99) / 100);
    if option {
        return (115 * sum + 99) / 100;
    }
    sum
}
