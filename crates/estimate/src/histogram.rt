// The sum over how often each residual occurs, by the lent counters.
ghost use Rattle.std.specs.Prelude.{◌≡◌, ◌*◌, ◌≤◌, ◌<◌, ◌^◌, eqb, length, All, sum_by};
ghost use Rattle.stage.specs.Logarithm.{L};
ghost use Rattle.stage.specs.Estimate.{histogram, log_sum};
ghost use Rattle.stage.specs.Search.{cleared};
ghost use Rattle.estimate.specs.Counting.{entry, AllBelow, AllZero, Occurrences, Summable};

// c × L(c). The remainder takes 0 to 4,096, whose logarithm times 0 is 0: it needs no branch.
fn log_product(c: u32) -> u32
    requires { c ≤ 4096 }
    ensures { result ≡ c * L c }
{
    c * logs::log((c + 4095) % 4096 + 1)
}

// The sum of c × L(c) over counters.
fn sum_products(counters: &[u32]) -> u32
    requires each { All (λ c. c ≤ 4096) counters.now }
    requires most { sum_by (λ c. c * L c) counters.now < 2 ^ 32 }
    ensures { result ≡ sum_by (λ c. c * L c) counters.now }
{
    counters.iter().map(|c| log_product(*c)).sum()
}

// The sum of c × L(c) over counters, which are cleared.
fn sum_all(counters: &mut [u32]) -> u32
    requires { Summable counters.old }
    ensures value { result ≡ log_sum counters.old }
    ensures all_zero { counters.new ≡ cleared 0 counters.old }
{
    let sum = sum_products(counters);
    counters.fill(0);
    sum
}

// The same over the counters of listed residuals, each once, since a counter that is added is cleared.
fn sum_listed(bins: &[u32], counters: &mut [u32]) -> u32
    requires n_bound { length bins.now ≤ 4096 }
    requires all_below { AllBelow (length counters.old) (length bins.now) bins.now }
    requires occurrences { Occurrences (entry bins.now) (length bins.now) counters.old }
    ensures value { result ≡ log_sum (histogram eqb (entry bins.now) (length bins.now) (length bins.now)) }
    ensures all_zero { AllZero counters.new }
{
    let mut sum: u32 = 0;
    for bin in bins {
        let x = *bin as usize;
        sum += log_product(counters[x]);
        counters[x] = 0;
    }
    sum
}

// The second pass: the sum of c × L(c) over how often each residual occurs. The first m counters are visited where they are fewer than
// the residuals, else only those that were counted, so no cost grows with m.
pub fn sum_and_clear(bins: &[u32], m: usize, counters: &mut [u32]) -> u32
    requires n_bound { (length bins.now ≤ 4096) × (m ≤ length counters.old) }
    requires all_below { AllBelow m (length bins.now) bins.now }
    requires occurrences { Occurrences (entry bins.now) (length bins.now) counters.old }
    ensures value { result ≡ log_sum (histogram eqb (entry bins.now) (length bins.now) (length bins.now)) }
    ensures all_zero { AllZero counters.new }
{
    if m < bins.len() {
        sum_all(&mut counters[..m])
    } else {
        sum_listed(bins, counters)
    }
}
