//! The algorithms: their numbers, names and ciphers.
ghost use Rattle.std.specs.Prelude.{◌≡◌, ◌<◌, length, Some, slice_get};
ghost use Rattle.algorithm_names.specs.Algorithms.{ciphers_of, name_of, named, number_of};

/// A block cipher with a key of 32 bytes.
#[derive(Clone, Copy, Debug, PartialEq, Eq)]
pub enum Cipher {
    Aes,
    Serpent,
    Twofish,
}

/// An algorithm, named by its ciphers with the last one of enciphering first. The numbers are
/// the order in which opening tries them.
#[derive(Clone, Copy, Debug, PartialEq, Eq)]
pub enum Algorithm {
    Aes = 0,
    Serpent = 1,
    Twofish = 2,
    AesTwofish = 3,
    AesTwofishSerpent = 4,
    SerpentAes = 5,
    SerpentTwofishAes = 6,
    TwofishSerpent = 7,
}

impl Algorithm {
    /// Its number, 0 to 7.
    pub fn number(self) -> u8
        ensures { result ≡ number_of self }
    {
        self as u8
    }

    /// The algorithm with this number.
    pub fn at(i: u8) -> Algorithm
        requires { i < 8 }
        ensures { number_of result ≡ i }
    {
        match i {
            0 => Algorithm::Aes,
            1 => Algorithm::Serpent,
            2 => Algorithm::Twofish,
            3 => Algorithm::AesTwofish,
            4 => Algorithm::AesTwofishSerpent,
            5 => Algorithm::SerpentAes,
            6 => Algorithm::SerpentTwofishAes,
            _ => Algorithm::TwofishSerpent,
        }
    }

    /// The number of its ciphers, 1 to 3.
    pub fn ciphers(self) -> u8
        ensures { result ≡ length (ciphers_of self) }
    {
        match self {
            Algorithm::Aes | Algorithm::Serpent | Algorithm::Twofish => 1,
            Algorithm::AesTwofish | Algorithm::SerpentAes | Algorithm::TwofishSerpent => 2,
            Algorithm::AesTwofishSerpent | Algorithm::SerpentTwofishAes => 3,
        }
    }

    /// The i-th cipher in the order of enciphering, from 0.
    pub fn layer(self, i: u8) -> Cipher
        requires { i < length (ciphers_of self) }
        ensures { slice_get (ciphers_of self) i ≡ Some result }
    {
        match (self, i) {
            (Algorithm::Aes | Algorithm::SerpentAes | Algorithm::SerpentTwofishAes, 0)
            | (Algorithm::AesTwofish, 1)
            | (Algorithm::AesTwofishSerpent, 2) => Cipher::Aes,
            (Algorithm::Twofish | Algorithm::AesTwofish, 0)
            | (
                Algorithm::AesTwofishSerpent
                | Algorithm::SerpentTwofishAes
                | Algorithm::TwofishSerpent,
                1,
            ) => Cipher::Twofish,
            _ => Cipher::Serpent,
        }
    }

    /// The name that users write.
    pub fn name(self) -> &'static str
        ensures { result.now ≡ name_of self }
    {
        match self {
            Algorithm::Aes => "aes",
            Algorithm::Serpent => "serpent",
            Algorithm::Twofish => "twofish",
            Algorithm::AesTwofish => "aes-twofish",
            Algorithm::AesTwofishSerpent => "aes-twofish-serpent",
            Algorithm::SerpentAes => "serpent-aes",
            Algorithm::SerpentTwofishAes => "serpent-twofish-aes",
            Algorithm::TwofishSerpent => "twofish-serpent",
        }
    }

    /// The algorithm of that name. None if no name equals it.
    #[tactic(auto, unfolding(crate::specs::Algorithms::named))]
    pub fn from_name(name: &str) -> Option<Algorithm>
        ensures { result ≡ named name.now }
    {
        let algorithm = match name {
            "aes" => Algorithm::Aes,
            "serpent" => Algorithm::Serpent,
            "twofish" => Algorithm::Twofish,
            "aes-twofish" => Algorithm::AesTwofish,
            "aes-twofish-serpent" => Algorithm::AesTwofishSerpent,
            "serpent-aes" => Algorithm::SerpentAes,
            "serpent-twofish-aes" => Algorithm::SerpentTwofishAes,
            "twofish-serpent" => Algorithm::TwofishSerpent,
            _ => return None,
        };
        Some(algorithm)
    }
}

#[cfg(test)]
mod tests {
    use super::*;

    // by hand
    #[test]
    fn algorithms_have_these_numbers_names_and_ciphers(rt: HostRuntime) {
        let rows = [
            (0, "aes", 1),
            (1, "serpent", 1),
            (2, "twofish", 1),
            (3, "aes-twofish", 2),
            (4, "aes-twofish-serpent", 3),
            (5, "serpent-aes", 2),
            (6, "serpent-twofish-aes", 3),
            (7, "twofish-serpent", 2),
        ];
        for (number, name, ciphers) in rows {
            let algorithm = Algorithm::at(number);
            assert_eq!(rt; algorithm.number(), number, "{name}");
            assert_eq!(rt; algorithm.name(), name);
            assert_eq!(rt; algorithm.ciphers(), ciphers, "{name}");
            assert_eq!(rt; Algorithm::from_name(name), Some(algorithm));
        }
    }

    #[test]
    fn the_last_cipher_of_enciphering_names_the_algorithm_first(rt: HostRuntime) {
        let algorithm = Algorithm::SerpentTwofishAes;
        assert_eq!(rt; algorithm.layer(0), Cipher::Aes);
        assert_eq!(rt; algorithm.layer(1), Cipher::Twofish);
        assert_eq!(rt; algorithm.layer(2), Cipher::Serpent);
        assert!(rt; Algorithm::from_name("camellia").is_none());
    }
}
