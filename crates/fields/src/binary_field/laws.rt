// What the definitions on polynomials are held to.
ghost use Rattle.fields.specs.PolynomialLaws.{CarrylessRing, DivisionLaw, PolynomialExamples};

/// The laws of products and remainders of polynomials over two elements, and examples. The call
/// does nothing: its clauses are the laws.
pub fn polynomial_laws()
    ensures ring { CarrylessRing }
    ensures division { DivisionLaw }
    ensures examples { PolynomialExamples }
{}
