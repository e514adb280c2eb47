//! What the two keys of a point tree give together.
ghost use Rattle.seed_expansion.specs.Expanders.{Meaning, IsPure};
ghost use Rattle.point_keys.specs.Points.{PointSharesAdd};

/// For a pure expander the two shares add to `beta` at `alpha` and to 0 elsewhere, modulo 2^64.
pub fn point_shares_add()
    ensures { (e : Meaning) → IsPure e → PointSharesAdd e }
{}
