//! Eight hashes of a line's number, of the class H3 (Carter and Wegman 1979).

ghost use Rattle.std.specs.Prelude.{◌≡◌, ◌<◌};
ghost use Rattle.line_table.specs.Hash.{mix, hashes};

/// How many bits a line's number has.
const LINE_BITS: usize = 32;

/// For each bit of a line's number what it adds to the hashes, eight bytes, one for each hash. They are the first
/// 2,048 bits of the fraction of pi in base 2, in their order.
pub const DIGITS: [u64; LINE_BITS] = [
    0x243f_6a88_85a3_08d3,
    0x1319_8a2e_0370_7344,
    0xa409_3822_299f_31d0,
    0x082e_fa98_ec4e_6c89,
    0x4528_21e6_38d0_1377,
    0xbe54_66cf_34e9_0c6c,
    0xc0ac_29b7_c97c_50dd,
    0x3f84_d5b5_b547_0917,
    0x9216_d5d9_8979_fb1b,
    0xd131_0ba6_98df_b5ac,
    0x2ffd_72db_d01a_dfb7,
    0xb8e1_afed_6a26_7e96,
    0xba7c_9045_f12c_7f99,
    0x24a1_9947_b391_6cf7,
    0x0801_f2e2_858e_fc16,
    0x6369_20d8_7157_4e69,
    0xa458_fea3_f493_3d7e,
    0x0d95_748f_728e_b658,
    0x718b_cd58_8215_4aee,
    0x7b54_a41d_c25a_59b5,
    0x9c30_d539_2af2_6013,
    0xc5d1_b023_2860_85f0,
    0xca41_7918_b8db_38ef,
    0x8e79_dcb0_603a_180e,
    0x6c9e_0e8b_b01e_8a3e,
    0xd715_77c1_bd31_4b27,
    0x78af_2fda_5560_5c60,
    0xe655_25f3_aa55_ab94,
    0x5748_9862_63e8_1440,
    0x55ca_396a_2aab_10b6,
    0xb4cc_5c34_1141_e8ce,
    0xa154_86af_7c72_e993,
];

/// Adds what the bit of the line's number adds.
fn mix(mixed: u64, line: u32, bit: usize) -> u64
    requires { bit < LINE_BITS }
    ensures { result ≡ mix line mixed bit }
{
    if line >> bit & 1 == 1 {
        mixed ^ DIGITS[bit]
    } else {
        mixed
    }
}

/// The eight hashes of the line's number, of 8 bits each, as one number with the first in its lowest bits.
pub fn hashes(line: u32) -> u64
    ensures { result ≡ hashes line }
{
    let mut mixed = 0;
    for bit in 0..LINE_BITS {
        mixed = mix(mixed, line, bit);
    }
    mixed
}
