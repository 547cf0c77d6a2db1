//! Theory of relations between rows over a Euclidean ring, which is a commutative ring with the sizes of
//! `euclid_theory`: Gauss' lemma, and rows of which each relation moved up by one place is a relation, as the
//! coordinates of the powers of an element are. The relation with the fewest members is then monic up to an
//! invertible factor. Polynomials over a field are such a ring. The theorems stand in `proofs/`; there is no code.
#![tactic(auto)]
