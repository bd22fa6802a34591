// The lent table: 32 numbers for each record.
ghost use Rattle.std.specs.Prelude.{◌≡◌, [], ◌∷◌, ◌+◌, ◌≤◌, pos, length, replicate};
ghost use Rattle.std.proofs.lemmas.List.Edits.{sets};

// All zeros, whatever it held.
pub fn clear(t: &mut [i64])
    ensures { t.new ≡ replicate (length t.old) (pos 0) }
{
    t.fill(0);
}

// The first four numbers of the record that starts at w: "0 kind, 1 owner, 2 volume from 1, 3 line".
pub fn head(t: &mut [i64], w: usize, kind: u8, owner: u32, volume: u8, line: u32)
    requires { w + 4 ≤ length t.old }
    ensures { t.new ≡ sets t.old w (pos kind ∷ pos owner ∷ pos volume ∷ pos line ∷ []) }
{
    t[w] = i64::from(kind);
    t[w + 1] = i64::from(owner);
    t[w + 2] = i64::from(volume);
    t[w + 3] = i64::from(line);
}
