//! The tables of CRC-32, for bytes that go in several at a time.

// The sums of these numbers: entry i is that of those at whose place i has a bit.
macro_rules! sums {
    (@ $($sum:expr),+;) => { [$($sum),+] };
    (@ $($sum:expr),+; $number:literal $($more:literal)*) => {
        sums!(@ $($sum),+, $($sum ^ $number),+; $($more)*)
    };
    ($($number:literal)+) => { sums!(@ 0; $($number)+) };
}

// Entry i of the table k is the register after k + 1 bytes of zeros, where it was i. The proof of
// `entry` computes all of them from the definition.
pub(crate) static TABLES: [[u32; 256]; 16] = [
    sums!(
        0x7707_3096 0xEE0E_612C 0x076D_C419 0x0EDB_8832
        0x1DB7_1064 0x3B6E_20C8 0x76DC_4190 0xEDB8_8320
    ),
    sums!(
        0x191B_3141 0x3236_6282 0x646C_C504 0xC8D9_8A08
        0x4AC2_1251 0x9584_24A2 0xF079_4F05 0x3B83_984B
    ),
    sums!(
        0x01C2_6A37 0x0384_D46E 0x0709_A8DC 0x0E13_51B8
        0x1C26_A370 0x384D_46E0 0x709A_8DC0 0xE135_1B80
    ),
    sums!(
        0xB8BC_6765 0xAA09_C88B 0x8F62_9757 0xC5B4_28EF
        0x5019_579F 0xA032_AF3E 0x9B14_583D 0xED59_B63B
    ),
    sums!(
        0x3D60_29B0 0x7AC0_5360 0xF580_A6C0 0x3070_4BC1
        0x60E0_9782 0xC1C1_2F04 0x58F3_5849 0xB1E6_B092
    ),
    sums!(
        0xCB5C_D3A5 0x4DC8_A10B 0x9B91_4216 0xEC53_826D
        0x03D6_029B 0x07AC_0536 0x0F58_0A6C 0x1EB0_14D8
    ),
    sums!(
        0xA677_0BB4 0x979F_1129 0xF44F_2413 0x33EF_4E67
        0x67DE_9CCE 0xCFBD_399C 0x440B_7579 0x8816_EAF2
    ),
    sums!(
        0xCCAA_009E 0x4225_077D 0x844A_0EFA 0xD3E5_1BB5
        0x7CBB_312B 0xF976_6256 0x299D_C2ED 0x533B_85DA
    ),
    sums!(
        0x177B_1443 0x2EF6_2886 0x5DEC_510C 0xBBD8_A218
        0xACC0_4271 0x82F1_82A3 0xDE92_0307 0x6655_004F
    ),
    sums!(
        0xEFC2_6B3E 0x04F5_D03D 0x09EB_A07A 0x13D7_40F4
        0x27AE_81E8 0x4F5D_03D0 0x9EBA_07A0 0xE605_0901
    ),
    sums!(
        0xC18E_DFC0 0x586C_B9C1 0xB0D9_7382 0xBAC3_E145
        0xAEF6_C4CB 0x869C_8FD7 0xD648_19EF 0x77E1_359F
    ),
    sums!(
        0x9BA5_4C6F 0xEC3B_9E9F 0x0306_3B7F 0x060C_76FE
        0x0C18_EDFC 0x1831_DBF8 0x3063_B7F0 0x60C7_6FE0
    ),
    sums!(
        0xDD96_D985 0x605C_B54B 0xC0B9_6A96 0x5A03_D36D
        0xB407_A6DA 0xB37E_4BF5 0xBD8D_91AB 0xA06A_2517
    ),
    sums!(
        0x9D0F_E176 0xE16E_C4AD 0x19AC_8F1B 0x3359_1E36
        0x66B2_3C6C 0xCD64_78D8 0x41B9_F7F1 0x8373_EFE2
    ),
    sums!(
        0xB9FB_DBE8 0xA886_B191 0x8A7C_6563 0xCF89_CC87
        0x4462_9F4F 0x88C5_3E9E 0xCAFB_7B7D 0x4E87_F0BB
    ),
    sums!(
        0xAE68_9191 0x87A0_2563 0xD431_4C87 0x7313_9F4F
        0xE627_3E9E 0x173F_7B7D 0x2E7E_F6FA 0x5CFD_EDF4
    ),
];
