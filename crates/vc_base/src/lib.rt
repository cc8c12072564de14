//! The definitions that several crates cite, and their laws.
//!
//! This crate has no code that runs. `specs/Bytes.antt` has lists of bytes cut into pieces,
//! `specs/Polynomial.antt` polynomials over GF(2) with their products and remainders, and
//! `specs/Faults.antt` the counts of faults that files and streams keep. The functions below have
//! empty bodies: each states laws of these definitions. `proofs/` has the lemmas that other crates use.
#![tactic(auto)]

ghost use Rattle.std.specs.Prelude.{◌≡◌, ◌<◌, ℕ, ◌*◌, ◌^◌, Bool, List, length, bit_xor};
ghost use Rattle.vc_base.specs.Bytes.{IsBytes, from_bytes, in_pieces, piece, to_bytes, xor_bytes};
ghost use Rattle.vc_base.specs.Polynomial.{IsOfDegree, IsRemainder, coefficients, number};
ghost use Rattle.vc_base.specs.Polynomial.{product, remainder, times};

/// The remainder of a polynomial by one of degree n is what division leaves, and nothing else is.
pub fn remainder_is_that_of_division()
    ensures divides { (n m : ℕ) (cs : List Bool) → IsOfDegree n m
        → IsRemainder n m (number cs) (remainder n m cs) }
    ensures alone { (n m a r s : ℕ) → IsOfDegree n m → IsRemainder n m a r → IsRemainder n m a s
        → r ≡ s }
{}

/// The product modulo a polynomial of degree n is the remainder of the product of polynomials. With
/// XOR as the sum, it makes the numbers below 2^n a commutative ring, whose one is 1.
pub fn products_form_a_ring()
    ensures remains { (n m a b : ℕ) → IsOfDegree n m → a < 2 ^ n
        → IsRemainder n m (times a (coefficients n b)) (product n m a b) }
    ensures one { (n m a : ℕ) → 0 < n → IsOfDegree n m → a < 2 ^ n → product n m a 1 ≡ a }
    ensures turned { (n m a b : ℕ) → a < 2 ^ n → b < 2 ^ n → product n m a b ≡ product n m b a }
    ensures grouped { (n m a b c : ℕ) → IsOfDegree n m → a < 2 ^ n → b < 2 ^ n
        → product n m (product n m a b) c ≡ product n m a (product n m b c) }
    ensures linear { (n m a b c : ℕ) → IsOfDegree n m → a < 2 ^ n
        → product n m a (bit_xor b c) ≡ bit_xor (product n m a b) (product n m a c) }
{}

/// Lists of n bytes and numbers below 256^n spell each other, and XOR acts on both alike.
pub fn bytes_spell_numbers()
    ensures read { (n x : ℕ) → x < 256 ^ n → from_bytes (to_bytes n x) ≡ x }
    ensures written { (n : ℕ) (xs : List ℕ) → IsBytes n xs → to_bytes n (from_bytes xs) ≡ xs }
    ensures fits { (n : ℕ) (xs : List ℕ) → IsBytes n xs → from_bytes xs < 256 ^ n }
    ensures sums { (n : ℕ) (xs ys : List ℕ) → IsBytes n xs → IsBytes n ys
        → from_bytes (xor_bytes xs ys) ≡ bit_xor (from_bytes xs) (from_bytes ys) }
{}

/// In a list of k pieces of n elements each piece is replaced by its own function, and that is all
/// that `in_pieces` does.
pub fn pieces_are_replaced_apart()
    ensures each { (n k j : ℕ) (f : ℕ → List ℕ → List ℕ) (xs : List ℕ) → 0 < n → length xs ≡ n * k
        → ((i : ℕ) (p : List ℕ) → length p ≡ n → length (f i p) ≡ n)
        → j < k → piece n j (in_pieces n f xs) ≡ f j (piece n j xs) }
    ensures alone { (n k : ℕ) (f : ℕ → List ℕ → List ℕ) (xs ys : List ℕ) → 0 < n
        → length xs ≡ n * k → length ys ≡ n * k
        → ((j : ℕ) → j < k → piece n j ys ≡ f j (piece n j xs)) → ys ≡ in_pieces n f xs }
{}
