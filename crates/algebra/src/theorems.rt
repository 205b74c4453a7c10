// The theorems that codes rest on. Each function asks for the proofs of its clauses, and does
// nothing.
ghost use Rattle.algebra.specs.Meaning.{Arithmetic, Meaning};
ghost use Rattle.algebra.specs.Laws.{Total, RingLaws, Laws};
ghost use Rattle.algebra.specs.Theorems.{TimesPowerIs, Reordering, WordReordering, Division, AnnihilatorMonic, AnnihilatorRoots, CofactorIs, AnnihilatorRootsOnly, Kernel, RootCount, Interpolation, Surjectivity, Distance, FillingOnly, FillingMakes};
ghost use Rattle.algebra.specs.ErrorLocators.{FewRoots, LocatorFits, ErrorLocator, ErrorRoots, Completeness, OnlyNear};
ghost use Rattle.algebra.specs.WorkedExample.{WorkedExample};

/// What holds in every ring: x × a^k is the product of x and a^k, the order of a sum does not
/// matter, and what division by X − a and the product of X − a over some points do. The call does
/// nothing: its clauses are the theorems.
pub fn ring_theorems()
    ensures times_power { (ring : Arithmetic) → Total ring → RingLaws ring → TimesPowerIs ring }
    ensures reordering { (ring : Arithmetic) → Total ring → RingLaws ring → Reordering ring }
    ensures word_reordering { (ring : Arithmetic) → Total ring → RingLaws ring
        → WordReordering ring }
    ensures division { (ring : Arithmetic) → Total ring → RingLaws ring → Division ring }
    ensures annihilator_monic { (ring : Arithmetic) → Total ring → RingLaws ring
        → AnnihilatorMonic ring }
    ensures annihilator_roots { (ring : Arithmetic) → Total ring → RingLaws ring
        → AnnihilatorRoots ring }
    ensures cofactor { (ring : Arithmetic) → Total ring → RingLaws ring → CofactorIs ring }
{}

/// What holds of distinct points in every field, and of words with sums 0. The call does nothing:
/// its clauses are the theorems.
pub fn point_theorems()
    ensures annihilator_roots_only { (m : Meaning) → Laws m → AnnihilatorRootsOnly m }
    ensures kernel { (m : Meaning) → Laws m → Kernel m }
    ensures root_count { (m : Meaning) → Laws m → RootCount m }
    ensures interpolation { (m : Meaning) → Laws m → Interpolation m }
    ensures surjectivity { (m : Meaning) → Laws m → Surjectivity m }
    ensures distance { (m : Meaning) → Laws m → Distance m }
    ensures filling_only { (m : Meaning) → Laws m → FillingOnly m }
    ensures filling_makes { (m : Meaning) → Laws m → FillingMakes m }
{}

/// What holds of errors and erasures in every field. The call does nothing: its clauses are the
/// theorems.
pub fn error_theorems()
    ensures few_roots { (m : Meaning) → Laws m → FewRoots m }
    ensures locator_fits { (m : Meaning) → Laws m → LocatorFits m }
    ensures error_locator { (m : Meaning) → Laws m → ErrorLocator m }
    ensures error_roots { (m : Meaning) → Laws m → ErrorRoots m }
    ensures completeness { (m : Meaning) → Laws m → Completeness m }
    ensures only_near { (m : Meaning) → Laws m → OnlyNear m }
{}

/// The definitions at work, modulo 7. The call does nothing: its clause is the example.
pub fn worked_example()
    ensures { WorkedExample }
{}
