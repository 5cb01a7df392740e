// The words of a certificate's lines, three for each: its fact, the positions of its rule's variables, and its rule with the lines that it
// calls.
ghost use Rattle.std.specs.Prelude.{◌≡◌, Bool, ◌*◌, ◌≤◌, length};
ghost use Rattle.semantics.specs.Certificate.{fact_at, positions_at, rule_at};
ghost use Rattle.words.specs.Told.{Told};
ghost use Rattle.certificate.specs.Line.{Positions};

// The fact of line k.
pub fn fact_at(words: &[u64], k: usize) -> u64
    requires { (1 ≤ k) × (3 * k ≤ length words.now) }
    ensures { result ≡ fact_at words.now k }
{
    words[3 * k - 3]
}

// The positions that line k gives the variables of its rule.
pub fn positions_at(words: &[u64], k: usize) -> u64
    requires { (1 ≤ k) × (3 * k ≤ length words.now) }
    ensures { result ≡ positions_at words.now k }
{
    words[3 * k - 2]
}

// The rule of line k, and the lines that it calls.
pub fn rule_at(words: &[u64], k: usize) -> u64
    requires { (1 ≤ k) × (3 * k ≤ length words.now) }
    ensures { result ≡ rule_at words.now k }
{
    words[3 * k - 1]
}

// Whether the word holds so many positions below n, and nothing above them.
pub fn positions_fit(word: u64, variables: usize, n: usize) -> bool
    ensures { Told result (Positions n variables word) }
{
    let mut rest = word;
    for _ in 0..variables {
        if n <= (rest % 256) as usize {
            return false;
        }
        rest /= 256;
    }
    rest == 0
}
