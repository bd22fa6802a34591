// A wire's power: phases, wires and volts are a row of document 000's table.
ghost use Rattle.std.specs.Prelude.{◌≡◌, [], ◌∷◌, ◌<◌, pos, length, get_or};
ghost use Rattle.rules.specs.Base.{among};
ghost use Rattle.rules.specs.Values.{num, amount, powers};

// A number as a natural one.
pub(crate) fn amount_at(rec: &[i64], i: usize) -> u64
    requires { i < length rec.now }
    ensures { result ≡ amount (num (get_or rec.now i (pos 0))) }
{
    rec[i].max(0) as u64
}

pub(crate) fn served_power(phases: u64, wires: u64, volts: u64) -> bool
    ensures { result ≡ among (phases ∷ wires ∷ volts ∷ []) powers }
{
    matches!(
        (phases, wires, volts),
        (1, 2, 100 | 200 | 231)
            | (1, 3, 200)
            | (3, 3, 200 | 400 | 3300 | 6600 | 22000 | 33000 | 66000)
            | (3, 4, 173 | 400)
    )
}
