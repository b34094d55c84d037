// The correctly rounded root of an f64, which upstream takes from `f64::sqrt`, from the operand's bits; and the whole root of a u64. Both over
// whole numbers, with no division but by powers of two.
#![tactic(auto)]

ghost use Rattle.std.specs.Prelude.{◌≡◌, IfSome, ◌+◌, ◌*◌, ◌/◌, ◌%◌, ◌^◌, ◌<◌, ◌≤◌};
ghost use Rattle.root.specs.Root.{sqrt_of};
ghost use Rattle.root.specs.Whole.{IsRoot, near_root};
ghost use Rattle.root.specs.WholeRoot.{whole_root_of};

// The largest whole number whose square is not above a number, and what the square leaves of it.
#[derive(Clone, Copy)]
pub struct WholeRoot {
    pub root: u64,
    pub remainder: u64,
}

// Near 2 ^ 31 times the inverse of a root, a straight line for each 64th of an octave: its start in five hexadecimal digits, and in the last
// three its fall in 8192 steps. Nothing is proved of the lines: `checked` tests what they lead to.
const TANGENTS: [u32; 128] = [
    0xb503d_b2f,
    0xb39df_aed,
    0xb2406_aaf,
    0xb0ea9_a72,
    0xaf9c5_a38,
    0xae556_9ff,
    0xad158_9c9,
    0xabdc6_995,
    0xaaa9c_962,
    0xa97d8_931,
    0xa8576_902,
    0xa7372_8d4,
    0xa61c9_8a8,
    0xa507a_87e,
    0xa3f7e_854,
    0xa2ed6_82c,
    0xa1e7e_805,
    0xa0e74_7df,
    0x9feb6_7bb,
    0x9ef41_798,
    0x9e011_775,
    0x9d127_754,
    0x9c280_733,
    0x9b41a_714,
    0x9a5f2_6f5,
    0x99808_6d7,
    0x98a59_6ba,
    0x97ce4_69e,
    0x96fa8_683,
    0x962a2_668,
    0x955d2_64e,
    0x94936_635,
    0x93ccc_61c,
    0x93093_604,
    0x9248b_5ed,
    0x918b1_5d6,
    0x90d06_5c0,
    0x90186_5aa,
    0x8f632_595,
    0x8eb07_580,
    0x8e007_56c,
    0x8d52e_558,
    0x8ca7e_545,
    0x8bff3_532,
    0x8b58f_520,
    0x8ab4e_50e,
    0x8a133_4fd,
    0x8973a_4ec,
    0x88d62_4db,
    0x883ac_4ca,
    0x87a18_4ba,
    0x870a4_4ab,
    0x8674e_49b,
    0x85e17_48c,
    0x85500_47e,
    0x84c04_46f,
    0x84326_461,
    0x83a63_453,
    0x831bd_446,
    0x82931_438,
    0x820c0_42b,
    0x8186a_41f,
    0x8102c_412,
    0x80808_406,
    0xfffe6_fd1,
    0xfe045_f74,
    0xfc15e_f1b,
    0xfa329_ec6,
    0xf859d_e73,
    0xf68b8_e24,
    0xf4c71_dd7,
    0xf30c4_d8d,
    0xf15ab_d45,
    0xefb21_d00,
    0xee121_cbd,
    0xec7a7_c7d,
    0xeaeae_c3e,
    0xe9632_c02,
    0xe7e2e_bc7,
    0xe66a1_b8f,
    0xe4f84_b58,
    0xe38d4_b22,
    0xe2290_aef,
    0xe0cb4_abd,
    0xdf73a_a8c,
    0xde223_a5d,
    0xdcd6a_a2f,
    0xdb90c_a02,
    0xda508_9d7,
    0xd915b_9ad,
    0xd7e01_984,
    0xd6af9_95c,
    0xd5841_935,
    0xd45d8_910,
    0xd33b8_8eb,
    0xd21e2_8c7,
    0xd1054_8a4,
    0xcff0c_882,
    0xcee07_861,
    0xcdd45_841,
    0xcccc4_822,
    0xcbc81_803,
    0xcac7b_7e5,
    0xc9cb2_7c8,
    0xc8d22_7ab,
    0xc7dcc_78f,
    0xc6ead_774,
    0xc5fc6_75a,
    0xc5113_740,
    0xc4293_726,
    0xc3446_70d,
    0xc262c_6f5,
    0xc1842_6de,
    0xc0a86_6c6,
    0xbfcfa_6b0,
    0xbef9b_69a,
    0xbe268_684,
    0xbd561_66f,
    0xbc884_65a,
    0xbbbd0_645,
    0xbaf45_631,
    0xba2e3_61e,
    0xb96a7_60b,
    0xb8a91_5f8,
    0xb7ea2_5e6,
    0xb72d7_5d4,
    0xb672f_5c2,
    0xb5bab_5b1,
];

// 2 ^ 31 times the inverse of a root, to 15 bits and not above, from the bit pattern of an operand or of one four times as large.
fn inverse(b: u64) -> u32 {
    let e = TANGENTS[((b >> 46) % 128) as usize];
    e.wrapping_sub(e % 4096 * (((b >> 33) % 8192) as u32))
}

fn product(a: u32, b: u32) -> u64
    ensures { result ≡ a * b }
{
    a as u64 * b as u64
}

// The whole number nearest to the root of n * 2 ^ 52, from y near the root's inverse, or `None` where y is not near enough. One step of Newton's
// takes the root and its inverse to 31 bits. The two constants are a little below 1 and above a half, so that neither a nor c is too large:
// then s or the next number is the nearest. The square of 2 * s - 1, which is a * 2 ^ 23 + d, leaves r of n * 2 ^ 54, and that decides.
fn checked(n: u64, y: u32) -> Option<u64>
    requires { (2 ^ 52 ≤ n) × (n < 2 ^ 54) }
    ensures { IfSome result (λ r. r ≡ near_root (n * 2 ^ 52)) }
{
    let p = product((n >> 22) as u32, y);
    let g = (p >> 32) as u32;
    let e = 0x3fff_ffff_0000_0000u64.wrapping_sub(product(g, y));
    let h = ((e >> 16) % 0x1_0000_0000) as u32;
    let a = (p.wrapping_add(product(g, h) >> 15) >> 32) as u32;
    let i = y.wrapping_add((product(y, h) >> 47) as u32);
    let t = (n * 256).wrapping_sub(product(a, a));
    if t >= 0x4_0000_0000 {
        return None;
    }
    let c = product((t / 4) as u32, i).wrapping_sub(0x40_2000_0000) >> 39;
    let d = (c * 2 + 1) as u32;
    let v = (t * 0x40_0000).wrapping_sub(product(a, d));
    if v >= 0x4_0000_0000 {
        return None;
    }
    let r = (v * 0x100_0000).wrapping_sub(product(d, d));
    let s = (a as u64) * 0x40_0000 + c + 1;
    if r < s * 8 {
        return Some(s);
    }
    if r < s * 16 + 8 {
        return Some(s + 1);
    }
    None
}

// The first `width` binary digits of the root of n, where n is taken as 32 digits in base four with zeros behind them, and what is left: each
// digit of the number gives one of the root.
fn digits(n: u64, width: u64) -> WholeRoot
    requires { width ≤ 54 }
    ensures { IsRoot (n * 4 ^ width / 2 ^ 64) result.root result.remainder }
{
    let mut root: u64 = 0;
    let mut left: u64 = 0;
    let mut rest = n;
    for _ in 0..width {
        let t = left * 4 + rest / 0x4000_0000_0000_0000;
        let o = (root * 4 < t) as u64;
        left = t - (root * 4 + 1) * o;
        root = root * 2 + o;
        rest = rest % 0x4000_0000_0000_0000 * 4;
    }
    WholeRoot {
        root,
        remainder: left,
    }
}

// The whole number nearest to the root of n * 2 ^ 52 where no guess is near enough: the last of 54 digits rounds.
fn by_digits(n: u64) -> u64
    requires { n < 2 ^ 54 }
    ensures { result ≡ near_root (n * 2 ^ 52) }
{
    (digits(n * 1024, 54).root + 1) / 2
}

fn nearest(n: u64, y: u32) -> u64
    requires { (2 ^ 52 ≤ n) × (n < 2 ^ 54) }
    ensures { result ≡ near_root (n * 2 ^ 52) }
{
    checked(n, y).unwrap_or_else(|| by_digits(n))
}

// The bit pattern of the root of m * 2 ^ (f - 1126), and the faster where b is that operand's, or a power of four times it.
fn finite(m: u64, f: u64, b: u64) -> u64
    requires { (2 ^ 52 ≤ m) × (m < 2 ^ 53) × (f ≤ 2097) }
    ensures { result ≡ (f / 2 + 485) * 2 ^ 52 + near_root (m * 2 ^ (f % 2) * 2 ^ 52) }
{
    (f / 2 + 485) * 0x10_0000_0000_0000 + nearest(m << (f % 2), inverse(b))
}

pub fn sqrt(a: f64) -> f64
    ensures { result ≡ sqrt_of a }
{
    if a.is_nan() {
        return a;
    }
    let b = f64::to_bits(a);
    // nearly always a positive number that is not subnormal
    if b.wrapping_sub(0x10_0000_0000_0000) < 0x7fe0_0000_0000_0000 {
        return f64::from_bits(finite(
            0x10_0000_0000_0000 + b % 0x10_0000_0000_0000,
            b / 0x10_0000_0000_0000 + 51,
            b,
        ));
    }
    if b == 0 {
        return a;
    }
    if b == 0x8000_0000_0000_0000 {
        return a;
    }
    if b > 0x8000_0000_0000_0000 {
        return f64::NAN;
    }
    if b >= 0x7ff0_0000_0000_0000 {
        return a;
    }
    let z = b.leading_zeros() as u64;
    let m = b << (z - 11);
    f64::from_bits(finite(m, 63 - z, m + (63 - z) * 0x10_0000_0000_0000))
}

// The roots of the numbers below 256.
const ROOTS: [u8; 256] = [
    0, 1, 1, 1, 2, 2, 2, 2, 2, 3, 3, 3, 3, 3, 3, 3, 4, 4, 4, 4, 4, 4, 4, 4, 4, 5, 5, 5, 5, 5, 5, 5,
    5, 5, 5, 5, 6, 6, 6, 6, 6, 6, 6, 6, 6, 6, 6, 6, 6, 7, 7, 7, 7, 7, 7, 7, 7, 7, 7, 7, 7, 7, 7, 7,
    8, 8, 8, 8, 8, 8, 8, 8, 8, 8, 8, 8, 8, 8, 8, 8, 8, 9, 9, 9, 9, 9, 9, 9, 9, 9, 9, 9, 9, 9, 9, 9,
    9, 9, 9, 9, 10, 10, 10, 10, 10, 10, 10, 10, 10, 10, 10, 10, 10, 10, 10, 10, 10, 10, 10, 10, 10,
    11, 11, 11, 11, 11, 11, 11, 11, 11, 11, 11, 11, 11, 11, 11, 11, 11, 11, 11, 11, 11, 11, 11, 12,
    12, 12, 12, 12, 12, 12, 12, 12, 12, 12, 12, 12, 12, 12, 12, 12, 12, 12, 12, 12, 12, 12, 12, 12,
    13, 13, 13, 13, 13, 13, 13, 13, 13, 13, 13, 13, 13, 13, 13, 13, 13, 13, 13, 13, 13, 13, 13, 13,
    13, 13, 13, 14, 14, 14, 14, 14, 14, 14, 14, 14, 14, 14, 14, 14, 14, 14, 14, 14, 14, 14, 14, 14,
    14, 14, 14, 14, 14, 14, 14, 14, 15, 15, 15, 15, 15, 15, 15, 15, 15, 15, 15, 15, 15, 15, 15, 15,
    15, 15, 15, 15, 15, 15, 15, 15, 15, 15, 15, 15, 15, 15, 15,
];

// Near 2 ^ 32 times the inverse of the root of x, a curve for each 16th of x from 1 to 4, in units of 2 ^ 11: where it starts, in the first digits; in five its
// fall, as it begins; and in the last three by how much less it falls at the end. Nothing is proved of them either.
const CURVES: [u64; 48] = [
    0x1ffff2_0ffad_b1e,
    0x1f0b5c_0e97b_999,
    0x1e2b73_0d652_859,
    0x1d5d75_0c5a5_752,
    0x1c9f1d_0b706_675,
    0x1bee89_0aa20_5bc,
    0x1b4a22_09eaa_51e,
    0x1ab094_09472_498,
    0x1a20b8_08b45_423,
    0x199994_08300_3be,
    0x191a51_07b87_367,
    0x18a230_074ba_319,
    0x18308e_06e8a_2d6,
    0x17c4d9_068de_299,
    0x175e93_063ab_264,
    0x16fd4b_05ee4_235,
    0x16a09b_05a7a_20a,
    0x16482a_05666_1e4,
    0x15f3a7_0529e_1c2,
    0x15a2ca_04f19_1a2,
    0x155552_04bd4_186,
    0x150b04_048c8_16d,
    0x14c3a9_045ed_156,
    0x147f11_04340_140,
    0x143d11_040c0_12d,
    0x13fd7e_03e65_11b,
    0x13c034_03c2f_10b,
    0x138510_03a18_0fc,
    0x134bf4_03820_0ee,
    0x1314c1_03643_0e1,
    0x12df5e_03481_0d5,
    0x12abb2_032d7_0ca,
    0x1279a5_03143_0c0,
    0x124922_02fc2_0b6,
    0x121a16_02e55_0ad,
    0x11ec6e_02cfa_0a5,
    0x11c018_02baf_09d,
    0x119506_02a75_096,
    0x116b27_02948_08f,
    0x11426e_0282b_08a,
    0x111acd_02718_083,
    0x10f438_02611_07d,
    0x10cea4_02516_078,
    0x10aa06_02426_073,
    0x108653_02340_06e,
    0x106381_02263_06a,
    0x104188_0218e_065,
    0x10205f_020c2_061,
];

// The whole root of n, or one less. Nothing is proved of it: `whole_root` tests it.
fn guess(n: u64) -> u32 {
    if n < 256 {
        return ROOTS[n as usize] as u32;
    }
    // One more than n has. Those of n itself, of which the compiler knows that it is not 0, it would count on x86-64 with an instruction that waits for the last value
    // of its register.
    let zeros = (n / 2).leading_zeros() as u64;
    let up = (zeros - 1) / 2;
    // x * 2 ^ 62, for an x from 1 to 4. Taking remainders below changes nothing where the curve is right, and bounds what is multiplied.
    let m = n << (up * 2);
    let c = CURVES[(m >> 58) as usize - 16];
    let o = ((m >> 44) % 0x4000) as u32;
    let fall = (((c >> 12) % 0x10_0000) as u32).wrapping_sub(o * ((c % 0x1000) as u32) >> 14)
        % 0x2_0000;
    let y = ((c >> 32) as u32).wrapping_sub(o * fall >> 14) % 0x20_0000 * 0x800;
    // The root of m by y to 17 bits, and then by what that leaves, times y.
    let g = ((product((m >> 32) as u32, y) >> 31) % 0x1_0000_0000) as u32;
    let left = m.wrapping_sub(product(g, g));
    let more = product(((left >> 18) % 0x1_0000_0000) as u32, y) >> 46;
    (((g as u64 + more) >> up) % 0x1_0000_0000) as u32
}

// The whole root, as `u64::isqrt` has it, and the remainder.
pub fn whole_root(n: u64) -> WholeRoot
    ensures { result ≡ whole_root_of n }
{
    let s = guess(n);
    let root = s as u64;
    let square = product(s, s);
    if square <= n {
        let remainder = n - square;
        if remainder <= root * 2 {
            return WholeRoot { root, remainder };
        }
        if remainder <= root * 4 + 3 {
            return WholeRoot {
                root: root + 1,
                remainder: remainder - (root * 2 + 1),
            };
        }
    }
    digits(n, 32)
}
