// The numbers of the kinds of words. Code that uses one is proved against the spelling: a wrong number here breaks that proof.
pub const NAME: u8 = 0;

pub const NUMBER: u8 = 1;

pub const BARS: u8 = 2; // ||

pub const OR: u8 = 3; // |

pub const UNEQUAL: u8 = 4; // !=

pub const NOT: u8 = 5; // !

pub const EQUAL: u8 = 6; // ==

pub const IS: u8 = 7; // =

pub const BECOMES: u8 = 8; // :=

pub const COLON: u8 = 9; // :

pub const HIGH: u8 = 10; // .H

pub const LOW: u8 = 11; // .L

pub const SEMICOLON: u8 = 12; // ;

pub const COMMA: u8 = 13; // ,

pub const OPEN: u8 = 14; // (

pub const CLOSE: u8 = 15; // )

pub const LEFT: u8 = 16; // [

pub const RIGHT: u8 = 17; // ]

pub const ABOVE: u8 = 18; // >

pub const BELOW: u8 = 19; // <

pub const AND: u8 = 20; // &

pub const PLUS: u8 = 21; // +

pub const MINUS: u8 = 22; // -

pub const TIMES: u8 = 23; // *

pub const OVER: u8 = 24; // /

pub const REST: u8 = 25; // %

pub const PROGRAM: u8 = 26;

pub const ENDPROG: u8 = 27;

pub const INPUT: u8 = 28;

pub const OUTPUT: u8 = 29;

pub const INTERNAL: u8 = 30;

pub const INTEGER: u8 = 31;

pub const TRUE: u8 = 32;

pub const FALSE: u8 = 33;

pub const INT: u8 = 34;

pub const SKIP: u8 = 35;

pub const DELAY: u8 = 36;

pub const RAISE: u8 = 37;

pub const LOWER: u8 = 38;

pub const INVERT: u8 = 39;

pub const IF: u8 = 40;

pub const THEN: u8 = 41;

pub const ELSE: u8 = 42;

pub const ENDIF: u8 = 43;

pub const WHILE: u8 = 44;

pub const DO: u8 = 45;

pub const LOOP: u8 = 46;

pub const ENDLOOP: u8 = 47;

pub const EXIT: u8 = 48;

pub const SWITCH: u8 = 49;

pub const CASE: u8 = 50;

pub const DEFAULT: u8 = 51;

pub const ENDSWITCH: u8 = 52;

pub const BREAK: u8 = 53;

pub const PARALLEL: u8 = 54;

pub const ENDPARALLEL: u8 = 55;

pub const PROCEDURE: u8 = 56;

pub const ENDPROC: u8 = 57;

pub const PROCESS: u8 = 58;

pub const PROCESSTYPE: u8 = 59;

pub const ENDTYPE: u8 = 60;

pub const COMPRESS: u8 = 61;

pub const ENDCOMPRESS: u8 = 62;
