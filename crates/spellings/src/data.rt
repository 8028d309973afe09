// The spellings: the signs, then the reserved words, in the language's order. Made by tools/tables.py; every entry is tested by a proof.

// All of them in one row.
pub const ROW: [u8; 254] =
    *b"|||!=!===:=:.H.L;,()[]><&+-*/%programendproginputoutputinternalintegertruefalseintskipdelayraiselowerinvertifthenelseendifwhiledoloopendloopexitswitchcasedefaultendswitchbreakparallelendparallelprocedureendprocprocessprocesstypeendtypecompressendcompress";

// Where each begins in the row, and where the last one ends.
pub const STARTS: [u8; 62] = [
    0, // ||
    2, // |
    3, // !=
    5, // !
    6, // ==
    8, // =
    9, // :=
    11, // :
    12, // .H
    14, // .L
    16, // ;
    17, // ,
    18, // (
    19, // )
    20, // [
    21, // ]
    22, // >
    23, // <
    24, // &
    25, // +
    26, // -
    27, // *
    28, // /
    29, // %
    30, // program
    37, // endprog
    44, // input
    49, // output
    55, // internal
    63, // integer
    70, // true
    74, // false
    79, // int
    82, // skip
    86, // delay
    91, // raise
    96, // lower
    101, // invert
    107, // if
    109, // then
    113, // else
    117, // endif
    122, // while
    127, // do
    129, // loop
    133, // endloop
    140, // exit
    144, // switch
    150, // case
    154, // default
    161, // endswitch
    170, // break
    175, // parallel
    183, // endparallel
    194, // procedure
    203, // endproc
    210, // process
    217, // processtype
    228, // endtype
    235, // compress
    243, // endcompress
    254,
];

// The first sign that begins with each byte from 32 to 63; 24 where none does.
pub const LOW_SIGNS: [u8; 32] = [
    24, // 32
    2, // !
    24, // 34
    24, // 35
    24, // 36
    23, // %
    18, // &
    24, // 39
    12, // (
    13, // )
    21, // *
    19, // +
    11, // ,
    20, // -
    8, // .
    22, // /
    24, // 48
    24, // 49
    24, // 50
    24, // 51
    24, // 52
    24, // 53
    24, // 54
    24, // 55
    24, // 56
    24, // 57
    6, // :
    10, // ;
    17, // <
    4, // =
    16, // >
    24, // 63
];

// .. from 64 to 127.
pub const HIGH_SIGNS: [u8; 64] = [
    24, // 64
    24, // 65
    24, // 66
    24, // 67
    24, // 68
    24, // 69
    24, // 70
    24, // 71
    24, // 72
    24, // 73
    24, // 74
    24, // 75
    24, // 76
    24, // 77
    24, // 78
    24, // 79
    24, // 80
    24, // 81
    24, // 82
    24, // 83
    24, // 84
    24, // 85
    24, // 86
    24, // 87
    24, // 88
    24, // 89
    24, // 90
    14, // [
    24, // 92
    15, // ]
    24, // 94
    24, // 95
    24, // 96
    24, // 97
    24, // 98
    24, // 99
    24, // 100
    24, // 101
    24, // 102
    24, // 103
    24, // 104
    24, // 105
    24, // 106
    24, // 107
    24, // 108
    24, // 109
    24, // 110
    24, // 111
    24, // 112
    24, // 113
    24, // 114
    24, // 115
    24, // 116
    24, // 117
    24, // 118
    24, // 119
    24, // 120
    24, // 121
    24, // 122
    24, // 123
    0, // |
    24, // 125
    24, // 126
    24, // 127
];

// The signs from this one on have one byte.
pub const LONG_SIGNS: usize = 10;

// The second byte of those before; 0 where there is none.
pub const SECONDS: [u8; 10] = [
    124, // ||
    0, // |
    61, // !=
    0, // !
    61, // ==
    0, // =
    61, // :=
    0, // :
    72, // .H
    76, // .L
];

// The next sign that begins as each of them does.
pub const NEXT_SIGN: [u8; 10] = [
    1, // ||
    24, // |
    3, // !=
    24, // !
    5, // ==
    24, // =
    7, // :=
    24, // :
    9, // .H
    24, // .L
];

// The first reserved word that begins with each small letter; 61 where none does.
pub const FIRST_RESERVED: [u8; 26] = [
    61, // a
    51, // b
    48, // c
    34, // d
    25, // e
    31, // f
    61, // g
    61, // h
    26, // i
    61, // j
    61, // k
    36, // l
    61, // m
    61, // n
    27, // o
    24, // p
    61, // q
    35, // r
    33, // s
    30, // t
    61, // u
    61, // v
    42, // w
    61, // x
    61, // y
    61, // z
];

// The next reserved word that begins as each does.
pub const NEXT_RESERVED: [u8; 37] = [
    52, // program
    40, // endprog
    28, // input
    61, // output
    29, // internal
    32, // integer
    39, // true
    61, // false
    37, // int
    47, // skip
    43, // delay
    61, // raise
    44, // lower
    38, // invert
    61, // if
    61, // then
    41, // else
    45, // endif
    61, // while
    49, // do
    61, // loop
    46, // endloop
    50, // exit
    61, // switch
    59, // case
    61, // default
    53, // endswitch
    61, // break
    54, // parallel
    55, // endparallel
    56, // procedure
    58, // endproc
    57, // process
    61, // processtype
    60, // endtype
    61, // compress
    61, // endcompress
];

// How many bytes each reserved word has.
pub const SIZES: [u8; 37] = [
    7, // program
    7, // endprog
    5, // input
    6, // output
    8, // internal
    7, // integer
    4, // true
    5, // false
    3, // int
    4, // skip
    5, // delay
    5, // raise
    5, // lower
    6, // invert
    2, // if
    4, // then
    4, // else
    5, // endif
    5, // while
    2, // do
    4, // loop
    7, // endloop
    4, // exit
    6, // switch
    4, // case
    7, // default
    9, // endswitch
    5, // break
    8, // parallel
    11, // endparallel
    9, // procedure
    7, // endproc
    7, // process
    11, // processtype
    7, // endtype
    8, // compress
    11, // endcompress
];
