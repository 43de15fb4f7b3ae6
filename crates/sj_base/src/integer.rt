//! Integers that are printed as JSON text.
ghost use Rattle.std.specs.Prelude.{◌≡◌, refl, ℤ, pos};
ghost use Rattle.sj_base.specs.Tree.{integer};
ghost use Rattle.sj_base.specs.Text.{text};

/// An integer that can be printed: any of the primitive types, up to 128 bits.
pub trait JsonInteger: itoa::Integer {
    // The number that it stands for.
    ghost number: { Self → ℤ };

    // `itoa` prints the JSON text of the number.
    ghost laws: { (n : Self) → Self.text n ≡ text (integer (number n)) };
}

impl JsonInteger for i8 {
    ghost number = { λ n. n };

    ghost laws = { λ n. refl };
}

impl JsonInteger for i16 {
    ghost number = { λ n. n };

    ghost laws = { λ n. refl };
}

impl JsonInteger for i32 {
    ghost number = { λ n. n };

    ghost laws = { λ n. refl };
}

impl JsonInteger for i64 {
    ghost number = { λ n. n };

    ghost laws = { λ n. refl };
}

impl JsonInteger for i128 {
    ghost number = { λ n. n };

    ghost laws = { λ n. refl };
}

impl JsonInteger for isize {
    ghost number = { λ n. n };

    ghost laws = { λ n. refl };
}

impl JsonInteger for u8 {
    ghost number = { pos };

    ghost laws = { λ n. refl };
}

impl JsonInteger for u16 {
    ghost number = { pos };

    ghost laws = { λ n. refl };
}

impl JsonInteger for u32 {
    ghost number = { pos };

    ghost laws = { λ n. refl };
}

impl JsonInteger for u64 {
    ghost number = { pos };

    ghost laws = { λ n. refl };
}

impl JsonInteger for u128 {
    ghost number = { pos };

    ghost laws = { λ n. refl };
}

impl JsonInteger for usize {
    ghost number = { pos };

    ghost laws = { λ n. refl };
}
