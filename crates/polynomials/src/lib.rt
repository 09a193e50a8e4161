// Polynomials in two variables u and v, held as slices of numbers in the order of `specs/Order.antt`.
#![tactic(auto)]

ghost use Rattle.std.specs.Prelude.{◌≡◌, ◌+◌, ◌-◌, ◌*◌, ◌≤◌, ℤ, ◌*ℤ◌, FitsSigned};
ghost use Rattle.std.specs.Int.{w64};
ghost use Rattle.polynomials.specs.Numbers.{ints};
ghost use Rattle.polynomials.specs.Group.{number, value, weight};
ghost use Rattle.polynomials.specs.Downward.{row_downward, downward, row_weight};
ghost use Rattle.polynomials.specs.Limits.{highest_degree, against, joint};
ghost use Rattle.polynomials.specs.Ready.{Formed, Followable, Readable, Reached, Weighable};

// No weight may pass it: 9 x 10^18.
pub const CAP: u64 = 9_000_000_000_000_000_000;

// The highest total degree that a group may have. A degree is no part of a group: in `microradians` one of degree 3 has room for degree 4.
const HIGHEST_DEGREE: usize = 4;

// One of the two variables of a group.
#[derive(Clone, Copy)]
pub enum Variable {
    First,
    Second,
}

// A reach, and the most that it can multiply within the cap. That it is so stays a clause (`Reached`): past the end of a list of reaches the
// definitions have one of size 0, which an invariant would not allow.
#[derive(Clone, Copy)]
pub struct Reach {
    pub size: u64,
    pub most: u64,
}

impl Reach {
    pub fn of(size: u64) -> Reach
        requires { 1 ≤ size }
        ensures { (result.size ≡ size) × Reached result }
    {
        Reach {
            size,
            most: CAP / size,
        }
    }
}

// The powers of u and v that a number of a group stands before.
#[derive(Clone, Copy)]
pub struct Powers {
    pub first: usize,
    pub second: usize,
}

// The number before the powers p of u and q of v; 0 where the group has none.
pub fn number_at(group: &[i64], p: usize, q: usize) -> i64
    requires { p + q ≤ highest_degree }
    ensures { result ≡ number ints group.now p q }
{
    let degree = p + q;
    let at = degree * (degree + 1) / 2 + q;
    if at < group.len() {
        return group[at];
    }
    0
}

// A product of one's own: exact, or rounded each time.
pub trait Product {
    ghost times: { ℤ → ℤ → ℤ };

    // What may be multiplied.
    ghost can_times: { ℤ → ℤ → Type 0 };

    fn times(a: i64, r: i64) -> i64
        requires { can_times a r }
        ensures { result ≡ times a r };
}

// The product of whole numbers.
pub struct Exact;

impl Product for Exact {
    ghost times = { ◌*ℤ◌ };

    ghost can_times = { λ a r. FitsSigned w64 (a *ℤ r) };

    fn times(a: i64, r: i64) -> i64 {
        a * r
    }
}

// The numbers beside the power q of v, at the reading x: from the highest power of u down.
fn row_at<P: Product>(group: &[i64], degree: usize, q: usize, x: i64) -> i64
    requires { (q ≤ degree) × ((degree ≤ highest_degree) × Formed P.can_times P.times (λ p. number ints group.now p q) x (degree - q)) }
    ensures { result ≡ row_downward ints P.times degree (number ints group.now) x q }
{
    let last = degree - q;
    let mut row = number_at(group, last, q);
    for p in (0..last).rev() {
        row = P::times(row, x) + number_at(group, p, q);
    }
    row
}

// The rows of a group, from the highest power of v down.
pub fn group_at<P: Product>(group: &[i64], degree: usize, x: i64, y: i64) -> i64
    requires { Followable P.can_times P.times group.now degree x y }
    ensures { result ≡ downward ints P.times degree (number ints group.now) x y }
{
    let mut sum = row_at::<P>(group, degree, degree, x);
    for q in (0..degree).rev() {
        sum = P::times(sum, y) + row_at::<P>(group, degree, q, x);
    }
    sum
}

// The value of a group at the readings x and y.
pub fn value_at(group: &[i64], x: i64, y: i64) -> i64
    requires { Readable group.now x y }
    ensures { result ≡ value group.now x y }
{
    group_at::<Exact>(group, HIGHEST_DEGREE, x, y)
}

// The sum times the reach v, and what the numbers beside the power q of v weigh at the reach u, together; or nothing where one of the two passes
// the cap. What a reach may multiply within the cap is known, so that nothing is formed that does not fit.
pub fn add_row(sum: u64, group: &[i64], degree: usize, q: usize, u: Reach, v: Reach) -> Option<u64>
    requires { (q ≤ degree) × ((degree ≤ highest_degree) × (Reached u × Reached v)) }
    ensures { result ≡ joint (sum * v.size) (row_weight degree group.now u.size q) }
{
    if sum > v.most {
        return None;
    }
    let last = degree - q;
    let mut row = whole::magnitude(number_at(group, last, q));
    for p in (0..last).rev() {
        if row > u.most {
            return None;
        }
        row = row * u.size + whole::magnitude(number_at(group, p, q));
    }
    if row > CAP {
        return None;
    }
    Some(sum * v.size + row)
}

// The weight of a group at the reaches u and v, or nothing where it passes the cap: its rows, from the highest power of v down.
pub fn weight_at(group: &[i64], degree: usize, u: Reach, v: Reach) -> Option<u64>
    requires { Weighable group.now degree u v }
    ensures { result ≡ against (weight group.now u.size v.size) }
{
    let rows = degree + 1;
    let mut sum: u64 = 0;
    for q in (0..rows).rev() {
        sum = add_row(sum, group, degree, q, u, v)?;
    }
    if sum > CAP {
        return None;
    }
    Some(sum)
}
