//! Theory of rings with sizes, in which degrees of products add and tops of elements can be taken away:
//! division on either side, the extended algorithm of Euclid by left multiples, common right divisors and
//! common left multiples, each with its only answer. Polynomials over a field with any twist, with their
//! lengths, are such a ring. The theorems stand in `proofs/`; there is no code.
#![tactic(auto)]
