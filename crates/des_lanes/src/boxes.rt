//! The S boxes of FIPS 46-3 as circuits of and, or, xor and not, which `tools/box_circuits` finds. No step depends on
//! the bits, so all 128 lanes of a pair of words pass a box at once, and in constant time.

ghost use Rattle.std.specs.Prelude.{◌≡◌, ℕ, [], ◌∷◌};
ghost use Rattle.des_block.specs.Tables.{s1, s2, s3, s4, s5, s6, s7, s8};
ghost use Rattle.des_block.specs.Cipher.{box_output};
ghost use Rattle.des_lanes.specs.Lanes.{lane_bits};

use std::simd::prelude::*;

/// S1.
#[inline]
pub(crate) fn box_1(
    a: u64x2,
    b: u64x2,
    c: u64x2,
    d: u64x2,
    e: u64x2,
    f: u64x2,
) -> (u64x2, u64x2, u64x2, u64x2)
    ensures { (lane : ℕ) → lane_bits lane (result.0 ∷ result.1 ∷ result.2 ∷ result.3 ∷ [])
        ≡ box_output s1 (lane_bits lane (a ∷ b ∷ c ∷ d ∷ e ∷ f ∷ [])) }
{
    let g1 = e ^ f;
    let g2 = !b;
    let g3 = !c;
    let g4 = g3 & g2;
    let g5 = g1 ^ g4;
    let g6 = !f;
    let g7 = !e;
    let g8 = g7 | g6;
    let g9 = b & g8;
    let g10 = e ^ g9;
    let g11 = g3 & g10;
    let g12 = g2 ^ g11;
    let g13 = a & g12;
    let g14 = g5 ^ g13;
    let g15 = !g8;
    let g16 = g1 ^ g2;
    let g17 = c & g16;
    let g18 = g15 ^ g17;
    let g19 = g2 & e;
    let g20 = g2 & g6;
    let g21 = e ^ g20;
    let g22 = g3 & g21;
    let g23 = g19 ^ g22;
    let g24 = a & g23;
    let g25 = g18 ^ g24;
    let g26 = d & g25;
    let g27 = g14 ^ g26;
    let g28 = g8 ^ g19;
    let g29 = g9 ^ g19;
    let g30 = c & g29;
    let g31 = g28 ^ g30;
    let g32 = g1 | b;
    let g33 = g20 | g1;
    let g34 = c & g33;
    let g35 = g32 ^ g34;
    let g36 = !a;
    let g37 = g36 & g35;
    let g38 = g31 ^ g37;
    let g39 = f ^ g15;
    let g40 = c & g39;
    let g41 = g32 ^ g40;
    let g42 = b ^ g10;
    let g43 = g20 ^ g39;
    let g44 = c & g43;
    let g45 = g42 ^ g44;
    let g46 = a & g45;
    let g47 = g41 ^ g46;
    let g48 = d & g47;
    let g49 = g38 ^ g48;
    let g50 = g3 & g32;
    let g51 = g2 ^ g50;
    let g52 = g8 ^ g33;
    let g53 = g3 & g52;
    let g54 = g28 ^ g53;
    let g55 = a & g54;
    let g56 = g51 ^ g55;
    let g57 = g28 ^ g40;
    let g58 = g44 ^ g52;
    let g59 = g36 & g58;
    let g60 = g57 ^ g59;
    let g61 = d & g60;
    let g62 = g56 ^ g61;
    let g63 = g15 ^ g29;
    let g64 = b & g39;
    let g65 = e ^ g64;
    let g66 = g3 & g65;
    let g67 = g63 ^ g66;
    let g68 = g21 ^ g33;
    let g69 = !g10;
    let g70 = c & g69;
    let g71 = g68 ^ g70;
    let g72 = a & g71;
    let g73 = g67 ^ g72;
    let g74 = g16 ^ g32;
    let g75 = g6 ^ g19;
    let g76 = g1 ^ g43;
    let g77 = c & g76;
    let g78 = g75 ^ g77;
    let g79 = a & g78;
    let g80 = g74 ^ g79;
    let g81 = d & g80;
    let g82 = g73 ^ g81;
    (g27, g49, g62, g82)
}

/// S2.
#[inline]
pub(crate) fn box_2(
    a: u64x2,
    b: u64x2,
    c: u64x2,
    d: u64x2,
    e: u64x2,
    f: u64x2,
) -> (u64x2, u64x2, u64x2, u64x2)
    ensures { (lane : ℕ) → lane_bits lane (result.0 ∷ result.1 ∷ result.2 ∷ result.3 ∷ [])
        ≡ box_output s2 (lane_bits lane (a ∷ b ∷ c ∷ d ∷ e ∷ f ∷ [])) }
{
    let g1 = !e;
    let g2 = d | g1;
    let g3 = g2 ^ f;
    let g4 = g3 ^ c;
    let g5 = e ^ g2;
    let g6 = f | g5;
    let g7 = f & e;
    let g8 = !c;
    let g9 = g8 & g7;
    let g10 = g6 ^ g9;
    let g11 = a & g10;
    let g12 = g4 ^ g11;
    let g13 = g7 | d;
    let g14 = g6 ^ g7;
    let g15 = !f;
    let g16 = g8 & g15;
    let g17 = g14 ^ g16;
    let g18 = !a;
    let g19 = g18 & g17;
    let g20 = g13 ^ g19;
    let g21 = b & g20;
    let g22 = g12 ^ g21;
    let g23 = d ^ g1;
    let g24 = g5 & f;
    let g25 = g8 & g24;
    let g26 = g23 ^ g25;
    let g27 = g26 ^ a;
    let g28 = !d;
    let g29 = f | g28;
    let g30 = g29 ^ c;
    let g31 = g17 & e;
    let g32 = a & g31;
    let g33 = g30 ^ g32;
    let g34 = b & g33;
    let g35 = g27 ^ g34;
    let g36 = g2 ^ g28;
    let g37 = g7 ^ g36;
    let g38 = g37 ^ c;
    let g39 = g5 ^ g7;
    let g40 = g29 & g2;
    let g41 = c & g40;
    let g42 = g39 ^ g41;
    let g43 = g18 & g42;
    let g44 = g38 ^ g43;
    let g45 = g13 ^ g29;
    let g46 = c & f;
    let g47 = g45 ^ g46;
    let g48 = g5 ^ g37;
    let g49 = g48 & g4;
    let g50 = a & g49;
    let g51 = g47 ^ g50;
    let g52 = b & g51;
    let g53 = g44 ^ g52;
    let g54 = g28 | g7;
    let g55 = e ^ g15;
    let g56 = c & g55;
    let g57 = g54 ^ g56;
    let g58 = g2 ^ g6;
    let g59 = g58 | g16;
    let g60 = a & g59;
    let g61 = g57 ^ g60;
    let g62 = f ^ g31;
    let g63 = g45 ^ g58;
    let g64 = f ^ g7;
    let g65 = c & g64;
    let g66 = g63 ^ g65;
    let g67 = a & g66;
    let g68 = g62 ^ g67;
    let g69 = b & g68;
    let g70 = g61 ^ g69;
    (g22, g35, g53, g70)
}

/// S3.
#[inline]
pub(crate) fn box_3(
    a: u64x2,
    b: u64x2,
    c: u64x2,
    d: u64x2,
    e: u64x2,
    f: u64x2,
) -> (u64x2, u64x2, u64x2, u64x2)
    ensures { (lane : ℕ) → lane_bits lane (result.0 ∷ result.1 ∷ result.2 ∷ result.3 ∷ [])
        ≡ box_output s3 (lane_bits lane (a ∷ b ∷ c ∷ d ∷ e ∷ f ∷ [])) }
{
    let g1 = !a;
    let g2 = !f;
    let g3 = g2 & g1;
    let g4 = f & c;
    let g5 = g3 | g4;
    let g6 = a ^ c;
    let g7 = g2 & g6;
    let g8 = g1 ^ g7;
    let g9 = b & g8;
    let g10 = g5 ^ g9;
    let g11 = g8 | a;
    let g12 = b & g3;
    let g13 = g11 ^ g12;
    let g14 = e & g13;
    let g15 = g10 ^ g14;
    let g16 = a ^ g11;
    let g17 = !b;
    let g18 = g17 | g16;
    let g19 = !c;
    let g20 = g19 & g1;
    let g21 = f & g20;
    let g22 = g6 ^ g21;
    let g23 = g2 | g1;
    let g24 = b & g23;
    let g25 = g22 ^ g24;
    let g26 = !e;
    let g27 = g26 & g25;
    let g28 = g18 ^ g27;
    let g29 = d & g28;
    let g30 = g15 ^ g29;
    let g31 = g22 & g11;
    let g32 = g7 ^ g11;
    let g33 = b & g32;
    let g34 = g31 ^ g33;
    let g35 = !g20;
    let g36 = f ^ g31;
    let g37 = b & g36;
    let g38 = g35 ^ g37;
    let g39 = e & g38;
    let g40 = g34 ^ g39;
    let g41 = g37 | g23;
    let g42 = e & g1;
    let g43 = g41 ^ g42;
    let g44 = d & g43;
    let g45 = g40 ^ g44;
    let g46 = g1 ^ g32;
    let g47 = g4 ^ g20;
    let g48 = b & g47;
    let g49 = g46 ^ g48;
    let g50 = g10 ^ g25;
    let g51 = g26 & g50;
    let g52 = g49 ^ g51;
    let g53 = c ^ g31;
    let g54 = b & g20;
    let g55 = g53 ^ g54;
    let g56 = g13 ^ g53;
    let g57 = e & g56;
    let g58 = g55 ^ g57;
    let g59 = d & g58;
    let g60 = g52 ^ g59;
    let g61 = a ^ f;
    let g62 = g61 ^ b;
    let g63 = g12 | c;
    let g64 = g26 & g63;
    let g65 = g62 ^ g64;
    let g66 = g5 ^ g11;
    let g67 = f ^ g20;
    let g68 = g17 & g67;
    let g69 = g66 ^ g68;
    let g70 = g20 ^ g66;
    let g71 = g26 & g70;
    let g72 = g69 ^ g71;
    let g73 = d & g72;
    let g74 = g65 ^ g73;
    (g60, g74, g30, g45)
}

/// S4.
#[inline]
pub(crate) fn box_4(
    a: u64x2,
    b: u64x2,
    c: u64x2,
    d: u64x2,
    e: u64x2,
    f: u64x2,
) -> (u64x2, u64x2, u64x2, u64x2)
    ensures { (lane : ℕ) → lane_bits lane (result.0 ∷ result.1 ∷ result.2 ∷ result.3 ∷ [])
        ≡ box_output s4 (lane_bits lane (a ∷ b ∷ c ∷ d ∷ e ∷ f ∷ [])) }
{
    let g1 = !a;
    let g2 = g1 ^ c;
    let g3 = !c;
    let g4 = g3 | g1;
    let g5 = !e;
    let g6 = g5 & g4;
    let g7 = g2 ^ g6;
    let g8 = !d;
    let g9 = g8 & g5;
    let g10 = g7 ^ g9;
    let g11 = g5 & g1;
    let g12 = g4 ^ g11;
    let g13 = g8 & g12;
    let g14 = c ^ g13;
    let g15 = b & g14;
    let g16 = g10 ^ g15;
    let g17 = g2 ^ g4;
    let g18 = e & g17;
    let g19 = g1 ^ g18;
    let g20 = d & g19;
    let g21 = g12 ^ g20;
    let g22 = e ^ g6;
    let g23 = c ^ e;
    let g24 = g8 & g23;
    let g25 = g22 ^ g24;
    let g26 = b & g25;
    let g27 = g21 ^ g26;
    let g28 = f & g27;
    let g29 = g16 ^ g28;
    let g30 = !g16;
    let g31 = !g27;
    let g32 = !f;
    let g33 = g32 & g31;
    let g34 = g30 ^ g33;
    let g35 = c ^ g19;
    let g36 = d & e;
    let g37 = g35 ^ g36;
    let g38 = g12 ^ g23;
    let g39 = d & g38;
    let g40 = g3 ^ g39;
    let g41 = b & g40;
    let g42 = g37 ^ g41;
    let g43 = a ^ g6;
    let g44 = g8 & g43;
    let g45 = g38 ^ g44;
    let g46 = a ^ g35;
    let g47 = g24 ^ g46;
    let g48 = b & g47;
    let g49 = g45 ^ g48;
    let g50 = g32 & g49;
    let g51 = g42 ^ g50;
    let g52 = !g49;
    let g53 = f & g52;
    let g54 = g42 ^ g53;
    (g51, g54, g34, g29)
}

/// S5.
#[inline]
pub(crate) fn box_5(
    a: u64x2,
    b: u64x2,
    c: u64x2,
    d: u64x2,
    e: u64x2,
    f: u64x2,
) -> (u64x2, u64x2, u64x2, u64x2)
    ensures { (lane : ℕ) → lane_bits lane (result.0 ∷ result.1 ∷ result.2 ∷ result.3 ∷ [])
        ≡ box_output s5 (lane_bits lane (a ∷ b ∷ c ∷ d ∷ e ∷ f ∷ [])) }
{
    let g1 = c ^ f;
    let g2 = f & c;
    let g3 = d | g2;
    let g4 = !b;
    let g5 = g4 & g3;
    let g6 = g1 ^ g5;
    let g7 = !g2;
    let g8 = d | g7;
    let g9 = e & g8;
    let g10 = g6 ^ g9;
    let g11 = g1 ^ g7;
    let g12 = d | g11;
    let g13 = g4 | g12;
    let g14 = !g1;
    let g15 = d & g14;
    let g16 = f ^ g15;
    let g17 = e & g16;
    let g18 = g13 ^ g17;
    let g19 = a & g18;
    let g20 = g10 ^ g19;
    let g21 = !g11;
    let g22 = d & f;
    let g23 = g21 ^ g22;
    let g24 = g3 | g1;
    let g25 = b & g24;
    let g26 = g23 ^ g25;
    let g27 = g3 & c;
    let g28 = d ^ g11;
    let g29 = g4 & g28;
    let g30 = g27 ^ g29;
    let g31 = !e;
    let g32 = g31 & g30;
    let g33 = g26 ^ g32;
    let g34 = c ^ g7;
    let g35 = d & g34;
    let g36 = g1 ^ g35;
    let g37 = g4 & g36;
    let g38 = g7 ^ g37;
    let g39 = g7 ^ g22;
    let g40 = b & g39;
    let g41 = g36 ^ g40;
    let g42 = e & g41;
    let g43 = g38 ^ g42;
    let g44 = a & g43;
    let g45 = g33 ^ g44;
    let g46 = g16 ^ g24;
    let g47 = f | d;
    let g48 = b & g47;
    let g49 = g46 ^ g48;
    let g50 = g8 ^ g15;
    let g51 = g7 ^ g23;
    let g52 = g4 & g51;
    let g53 = g50 ^ g52;
    let g54 = e & g53;
    let g55 = g49 ^ g54;
    let g56 = g1 ^ g3;
    let g57 = g8 ^ g36;
    let g58 = b & g57;
    let g59 = g56 ^ g58;
    let g60 = g14 ^ g30;
    let g61 = e & g60;
    let g62 = g59 ^ g61;
    let g63 = a & g62;
    let g64 = g55 ^ g63;
    let g65 = g3 ^ g16;
    let g66 = d ^ g39;
    let g67 = b & g66;
    let g68 = g65 ^ g67;
    let g69 = g46 ^ g57;
    let g70 = d ^ g2;
    let g71 = b & g70;
    let g72 = g69 ^ g71;
    let g73 = e & g72;
    let g74 = g68 ^ g73;
    let g75 = f ^ g23;
    let g76 = g75 | g71;
    let g77 = g3 ^ g69;
    let g78 = g48 ^ g77;
    let g79 = e & g78;
    let g80 = g76 ^ g79;
    let g81 = a & g80;
    let g82 = g74 ^ g81;
    (g82, g20, g45, g64)
}

/// S6.
#[inline]
pub(crate) fn box_6(
    a: u64x2,
    b: u64x2,
    c: u64x2,
    d: u64x2,
    e: u64x2,
    f: u64x2,
) -> (u64x2, u64x2, u64x2, u64x2)
    ensures { (lane : ℕ) → lane_bits lane (result.0 ∷ result.1 ∷ result.2 ∷ result.3 ∷ [])
        ≡ box_output s6 (lane_bits lane (a ∷ b ∷ c ∷ d ∷ e ∷ f ∷ [])) }
{
    let g1 = f & a;
    let g2 = !b;
    let g3 = g2 & g1;
    let g4 = a ^ g3;
    let g5 = g2 | g1;
    let g6 = c & g5;
    let g7 = g4 ^ g6;
    let g8 = !a;
    let g9 = !c;
    let g10 = g9 | g8;
    let g11 = e & g10;
    let g12 = g7 ^ g11;
    let g13 = !g5;
    let g14 = a ^ g1;
    let g15 = !f;
    let g16 = g2 & g15;
    let g17 = g14 ^ g16;
    let g18 = c & g17;
    let g19 = g13 ^ g18;
    let g20 = g5 ^ g17;
    let g21 = g14 ^ g15;
    let g22 = c & g21;
    let g23 = g20 ^ g22;
    let g24 = e & g23;
    let g25 = g19 ^ g24;
    let g26 = d & g25;
    let g27 = g12 ^ g26;
    let g28 = a ^ g15;
    let g29 = g28 ^ b;
    let g30 = !g14;
    let g31 = b | g30;
    let g32 = c & g31;
    let g33 = g29 ^ g32;
    let g34 = g10 ^ g32;
    let g35 = e & g34;
    let g36 = g33 ^ g35;
    let g37 = g6 | g2;
    let g38 = !g28;
    let g39 = g2 & g38;
    let g40 = g21 ^ g39;
    let g41 = g9 & g8;
    let g42 = g40 ^ g41;
    let g43 = e & g42;
    let g44 = g37 ^ g43;
    let g45 = d & g44;
    let g46 = g36 ^ g45;
    let g47 = g1 ^ g39;
    let g48 = g14 ^ g31;
    let g49 = c & g48;
    let g50 = g47 ^ g49;
    let g51 = g16 ^ g29;
    let g52 = g2 ^ g4;
    let g53 = c & g52;
    let g54 = g51 ^ g53;
    let g55 = !e;
    let g56 = g55 & g54;
    let g57 = g50 ^ g56;
    let g58 = g29 | g14;
    let g59 = g55 | g58;
    let g60 = d & g59;
    let g61 = g57 ^ g60;
    let g62 = g9 & b;
    let g63 = g38 ^ g62;
    let g64 = f ^ g4;
    let g65 = c & g64;
    let g66 = g21 ^ g65;
    let g67 = g55 & g66;
    let g68 = g63 ^ g67;
    let g69 = a ^ g64;
    let g70 = g13 ^ g16;
    let g71 = c & g70;
    let g72 = g69 ^ g71;
    let g73 = g72 | g35;
    let g74 = d & g73;
    let g75 = g68 ^ g74;
    (g75, g46, g61, g27)
}

/// S7.
#[inline]
pub(crate) fn box_7(
    a: u64x2,
    b: u64x2,
    c: u64x2,
    d: u64x2,
    e: u64x2,
    f: u64x2,
) -> (u64x2, u64x2, u64x2, u64x2)
    ensures { (lane : ℕ) → lane_bits lane (result.0 ∷ result.1 ∷ result.2 ∷ result.3 ∷ [])
        ≡ box_output s7 (lane_bits lane (a ∷ b ∷ c ∷ d ∷ e ∷ f ∷ [])) }
{
    let g1 = d & b;
    let g2 = g1 ^ e;
    let g3 = !b;
    let g4 = g3 | d;
    let g5 = f & g4;
    let g6 = g2 ^ g5;
    let g7 = d ^ g3;
    let g8 = !g1;
    let g9 = e | g8;
    let g10 = f & g9;
    let g11 = g7 ^ g10;
    let g12 = !a;
    let g13 = g12 & g11;
    let g14 = g6 ^ g13;
    let g15 = e & d;
    let g16 = f & g15;
    let g17 = b ^ g16;
    let g18 = g8 ^ g15;
    let g19 = f & b;
    let g20 = g18 ^ g19;
    let g21 = a & g20;
    let g22 = g17 ^ g21;
    let g23 = c & g22;
    let g24 = g14 ^ g23;
    let g25 = !d;
    let g26 = g25 ^ e;
    let g27 = g10 ^ g26;
    let g28 = g20 | g2;
    let g29 = a & g28;
    let g30 = g27 ^ g29;
    let g31 = g7 ^ g15;
    let g32 = !g31;
    let g33 = f & g32;
    let g34 = a & g33;
    let g35 = g31 ^ g34;
    let g36 = !c;
    let g37 = g36 & g35;
    let g38 = g30 ^ g37;
    let g39 = f ^ g2;
    let g40 = g9 ^ g32;
    let g41 = g2 ^ g18;
    let g42 = !f;
    let g43 = g42 & g41;
    let g44 = g40 ^ g43;
    let g45 = a & g44;
    let g46 = g39 ^ g45;
    let g47 = b ^ g18;
    let g48 = f | g47;
    let g49 = !g4;
    let g50 = e & g7;
    let g51 = g49 ^ g50;
    let g52 = f & g47;
    let g53 = g51 ^ g52;
    let g54 = a & g53;
    let g55 = g48 ^ g54;
    let g56 = c & g55;
    let g57 = g46 ^ g56;
    let g58 = !g7;
    let g59 = g18 & e;
    let g60 = g42 & g59;
    let g61 = g58 ^ g60;
    let g62 = g39 | e;
    let g63 = a & g62;
    let g64 = g61 ^ g63;
    let g65 = g4 ^ g31;
    let g66 = g42 | g65;
    let g67 = g18 ^ g51;
    let g68 = d ^ g51;
    let g69 = f & g68;
    let g70 = g67 ^ g69;
    let g71 = a & g70;
    let g72 = g66 ^ g71;
    let g73 = c & g72;
    let g74 = g64 ^ g73;
    (g57, g24, g74, g38)
}

/// S8.
#[inline]
pub(crate) fn box_8(
    a: u64x2,
    b: u64x2,
    c: u64x2,
    d: u64x2,
    e: u64x2,
    f: u64x2,
) -> (u64x2, u64x2, u64x2, u64x2)
    ensures { (lane : ℕ) → lane_bits lane (result.0 ∷ result.1 ∷ result.2 ∷ result.3 ∷ [])
        ≡ box_output s8 (lane_bits lane (a ∷ b ∷ c ∷ d ∷ e ∷ f ∷ [])) }
{
    let g1 = !e;
    let g2 = c | g1;
    let g3 = g2 ^ d;
    let g4 = !d;
    let g5 = g4 & g1;
    let g6 = c ^ g5;
    let g7 = b & g6;
    let g8 = g3 ^ g7;
    let g9 = e ^ g2;
    let g10 = !c;
    let g11 = g4 & g10;
    let g12 = g9 ^ g11;
    let g13 = c ^ e;
    let g14 = d | g13;
    let g15 = b & g14;
    let g16 = g12 ^ g15;
    let g17 = a & g16;
    let g18 = g8 ^ g17;
    let g19 = d & c;
    let g20 = !b;
    let g21 = g20 & g19;
    let g22 = g3 ^ g21;
    let g23 = !a;
    let g24 = g23 | g22;
    let g25 = f & g24;
    let g26 = g18 ^ g25;
    let g27 = g2 ^ g5;
    let g28 = g3 ^ g13;
    let g29 = b & g28;
    let g30 = g27 ^ g29;
    let g31 = !g5;
    let g32 = c ^ g27;
    let g33 = g20 & g32;
    let g34 = g31 ^ g33;
    let g35 = g23 & g34;
    let g36 = g30 ^ g35;
    let g37 = d ^ g13;
    let g38 = g28 ^ g31;
    let g39 = b & g38;
    let g40 = g37 ^ g39;
    let g41 = g22 ^ g33;
    let g42 = g23 & g41;
    let g43 = g40 ^ g42;
    let g44 = !f;
    let g45 = g44 & g43;
    let g46 = g36 ^ g45;
    let g47 = !g36;
    let g48 = d & g2;
    let g49 = g1 ^ g48;
    let g50 = b & g12;
    let g51 = g49 ^ g50;
    let g52 = g12 ^ g13;
    let g53 = g20 & g52;
    let g54 = g5 ^ g53;
    let g55 = g23 & g54;
    let g56 = g51 ^ g55;
    let g57 = f & g56;
    let g58 = g47 ^ g57;
    let g59 = g8 ^ g34;
    let g60 = g16 ^ g41;
    let g61 = g23 & g60;
    let g62 = g59 ^ g61;
    let g63 = b ^ g15;
    let g64 = d ^ g27;
    let g65 = b & g64;
    let g66 = g31 ^ g65;
    let g67 = a & g66;
    let g68 = g63 ^ g67;
    let g69 = f & g68;
    let g70 = g62 ^ g69;
    (g46, g26, g70, g58)
}
