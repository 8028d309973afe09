// The strength of an operator between its operands, by the number of its kind; 255 for every other word. Made by tools/tables.py; every entry is tested by a proof.
pub const STRENGTHS: [u8; 26] = [
    255, // name
    255, // number
    255, // ||
    1, // |
    2, // !=
    255, // !
    2, // ==
    255, // =
    255, // :=
    255, // :
    255, // .H
    255, // .L
    255, // ;
    255, // ,
    255, // (
    255, // )
    255, // [
    255, // ]
    2, // >
    2, // <
    0, // &
    4, // +
    4, // -
    5, // *
    5, // /
    5, // %
];
