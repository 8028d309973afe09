// Which word calls for which row of a part, in the order of the cells. Made by tools/tables.py; what is laid out of it is proved to be the definition's.

// How many cells the table of starts has, and how many of them are not 0.
pub const CELLS: usize = 5376;

pub const COUNT: usize = 331;

// 128 times the number of the part, plus the kind of the word.
pub const CALLED: [u16; 331] = [
    27, // Program: program
    129, // Declarations: name
    157, // Declarations: input
    158, // Declarations: output
    159, // Declarations: internal
    160, // Declarations: integer
    164, // Declarations: skip
    165, // Declarations: delay
    166, // Declarations: raise
    167, // Declarations: lower
    168, // Declarations: invert
    169, // Declarations: if
    173, // Declarations: while
    175, // Declarations: loop
    177, // Declarations: exit
    178, // Declarations: switch
    182, // Declarations: break
    183, // Declarations: parallel
    185, // Declarations: procedure
    257, // Procedure: name
    399, // Formals: (
    513, // FormalNames: name
    528, // FormalNames: )
    654, // MoreFormals: ,
    656, // MoreFormals: )
    769, // AfterProcedure: name
    781, // AfterProcedure: ;
    797, // AfterProcedure: input
    798, // AfterProcedure: output
    799, // AfterProcedure: internal
    800, // AfterProcedure: integer
    804, // AfterProcedure: skip
    805, // AfterProcedure: delay
    806, // AfterProcedure: raise
    807, // AfterProcedure: lower
    808, // AfterProcedure: invert
    809, // AfterProcedure: if
    813, // AfterProcedure: while
    815, // AfterProcedure: loop
    817, // AfterProcedure: exit
    818, // AfterProcedure: switch
    822, // AfterProcedure: break
    823, // AfterProcedure: parallel
    825, // AfterProcedure: procedure
    925, // Declaration: input
    926, // Declaration: output
    927, // Declaration: internal
    928, // Declaration: integer
    1025, // Inputs: name
    1165, // MoreInputs: ;
    1166, // MoreInputs: ,
    1288, // Ending: =
    1291, // Ending: .H
    1292, // Ending: .L
    1293, // Ending: ;
    1294, // Ending: ,
    1409, // Booleans: name
    1549, // MoreBooleans: ;
    1550, // MoreBooleans: ,
    1672, // BooleanStart: =
    1677, // BooleanStart: ;
    1678, // BooleanStart: ,
    1825, // BooleanValue: true
    1826, // BooleanValue: false
    1921, // Integers: name
    2061, // MoreIntegers: ;
    2062, // MoreIntegers: ,
    2184, // IntegerStart: =
    2189, // IntegerStart: ;
    2190, // IntegerStart: ,
    2305, // Statements: name
    2340, // Statements: skip
    2341, // Statements: delay
    2342, // Statements: raise
    2343, // Statements: lower
    2344, // Statements: invert
    2345, // Statements: if
    2349, // Statements: while
    2351, // Statements: loop
    2353, // Statements: exit
    2354, // Statements: switch
    2358, // Statements: break
    2359, // Statements: parallel
    2435, // AfterStatement: ||
    2445, // AfterStatement: ;
    2460, // AfterStatement: endprog
    2475, // AfterStatement: else
    2476, // AfterStatement: endif
    2480, // AfterStatement: endloop
    2483, // AfterStatement: case
    2484, // AfterStatement: default
    2485, // AfterStatement: endswitch
    2488, // AfterStatement: endparallel
    2490, // AfterStatement: endproc
    2561, // NextStatement: name
    2563, // NextStatement: ||
    2588, // NextStatement: endprog
    2596, // NextStatement: skip
    2597, // NextStatement: delay
    2598, // NextStatement: raise
    2599, // NextStatement: lower
    2600, // NextStatement: invert
    2601, // NextStatement: if
    2603, // NextStatement: else
    2604, // NextStatement: endif
    2605, // NextStatement: while
    2607, // NextStatement: loop
    2608, // NextStatement: endloop
    2609, // NextStatement: exit
    2610, // NextStatement: switch
    2611, // NextStatement: case
    2612, // NextStatement: default
    2613, // NextStatement: endswitch
    2614, // NextStatement: break
    2615, // NextStatement: parallel
    2616, // NextStatement: endparallel
    2618, // NextStatement: endproc
    2689, // Statement: name
    2724, // Statement: skip
    2725, // Statement: delay
    2726, // Statement: raise
    2727, // Statement: lower
    2728, // Statement: invert
    2729, // Statement: if
    2733, // Statement: while
    2735, // Statement: loop
    2737, // Statement: exit
    2738, // Statement: switch
    2742, // Statement: break
    2743, // Statement: parallel
    2825, // AfterName: :=
    2831, // AfterName: (
    2945, // Actuals: name
    2946, // Actuals: number
    2950, // Actuals: !
    2959, // Actuals: (
    2960, // Actuals: )
    2977, // Actuals: true
    2978, // Actuals: false
    2979, // Actuals: int
    3086, // MoreActuals: ,
    3088, // MoreActuals: )
    3243, // Else: else
    3244, // Else: endif
    3379, // Cases: case
    3380, // Cases: default
    3459, // Branches: ||
    3512, // Branches: endparallel
    3585, // Target: name
    3715, // Index: ||
    3716, // Index: |
    3717, // Index: !=
    3719, // Index: ==
    3722, // Index: :
    3725, // Index: ;
    3726, // Index: ,
    3728, // Index: )
    3729, // Index: [
    3731, // Index: >
    3732, // Index: <
    3733, // Index: &
    3734, // Index: +
    3735, // Index: -
    3736, // Index: *
    3737, // Index: /
    3738, // Index: %
    3740, // Index: endprog
    3754, // Index: then
    3755, // Index: else
    3756, // Index: endif
    3758, // Index: do
    3760, // Index: endloop
    3763, // Index: case
    3764, // Index: default
    3765, // Index: endswitch
    3768, // Index: endparallel
    3770, // Index: endproc
    3841, // Tier 0: name
    3842, // Tier 0: number
    3846, // Tier 0: !
    3855, // Tier 0: (
    3873, // Tier 0: true
    3874, // Tier 0: false
    3875, // Tier 0: int
    3969, // Tier 1: name
    3970, // Tier 1: number
    3974, // Tier 1: !
    3983, // Tier 1: (
    4001, // Tier 1: true
    4002, // Tier 1: false
    4003, // Tier 1: int
    4097, // Tier 2: name
    4098, // Tier 2: number
    4102, // Tier 2: !
    4111, // Tier 2: (
    4129, // Tier 2: true
    4130, // Tier 2: false
    4131, // Tier 2: int
    4225, // Tier 3: name
    4226, // Tier 3: number
    4230, // Tier 3: !
    4239, // Tier 3: (
    4257, // Tier 3: true
    4258, // Tier 3: false
    4259, // Tier 3: int
    4353, // Tier 4: name
    4354, // Tier 4: number
    4367, // Tier 4: (
    4385, // Tier 4: true
    4386, // Tier 4: false
    4387, // Tier 4: int
    4481, // Tier 5: name
    4482, // Tier 5: number
    4495, // Tier 5: (
    4513, // Tier 5: true
    4514, // Tier 5: false
    4515, // Tier 5: int
    4609, // Tier 6: name
    4610, // Tier 6: number
    4623, // Tier 6: (
    4641, // Tier 6: true
    4642, // Tier 6: false
    4643, // Tier 6: int
    4739, // Further 0: ||
    4746, // Further 0: :
    4749, // Further 0: ;
    4750, // Further 0: ,
    4752, // Further 0: )
    4757, // Further 0: &
    4764, // Further 0: endprog
    4778, // Further 0: then
    4779, // Further 0: else
    4780, // Further 0: endif
    4782, // Further 0: do
    4784, // Further 0: endloop
    4787, // Further 0: case
    4788, // Further 0: default
    4789, // Further 0: endswitch
    4792, // Further 0: endparallel
    4794, // Further 0: endproc
    4867, // Further 1: ||
    4868, // Further 1: |
    4874, // Further 1: :
    4877, // Further 1: ;
    4878, // Further 1: ,
    4880, // Further 1: )
    4885, // Further 1: &
    4892, // Further 1: endprog
    4906, // Further 1: then
    4907, // Further 1: else
    4908, // Further 1: endif
    4910, // Further 1: do
    4912, // Further 1: endloop
    4915, // Further 1: case
    4916, // Further 1: default
    4917, // Further 1: endswitch
    4920, // Further 1: endparallel
    4922, // Further 1: endproc
    4995, // Further 2: ||
    4996, // Further 2: |
    4997, // Further 2: !=
    4999, // Further 2: ==
    5002, // Further 2: :
    5005, // Further 2: ;
    5006, // Further 2: ,
    5008, // Further 2: )
    5011, // Further 2: >
    5012, // Further 2: <
    5013, // Further 2: &
    5020, // Further 2: endprog
    5034, // Further 2: then
    5035, // Further 2: else
    5036, // Further 2: endif
    5038, // Further 2: do
    5040, // Further 2: endloop
    5043, // Further 2: case
    5044, // Further 2: default
    5045, // Further 2: endswitch
    5048, // Further 2: endparallel
    5050, // Further 2: endproc
    5123, // Further 4: ||
    5124, // Further 4: |
    5125, // Further 4: !=
    5127, // Further 4: ==
    5130, // Further 4: :
    5133, // Further 4: ;
    5134, // Further 4: ,
    5136, // Further 4: )
    5139, // Further 4: >
    5140, // Further 4: <
    5141, // Further 4: &
    5142, // Further 4: +
    5143, // Further 4: -
    5148, // Further 4: endprog
    5162, // Further 4: then
    5163, // Further 4: else
    5164, // Further 4: endif
    5166, // Further 4: do
    5168, // Further 4: endloop
    5171, // Further 4: case
    5172, // Further 4: default
    5173, // Further 4: endswitch
    5176, // Further 4: endparallel
    5178, // Further 4: endproc
    5251, // Further 5: ||
    5252, // Further 5: |
    5253, // Further 5: !=
    5255, // Further 5: ==
    5258, // Further 5: :
    5261, // Further 5: ;
    5262, // Further 5: ,
    5264, // Further 5: )
    5267, // Further 5: >
    5268, // Further 5: <
    5269, // Further 5: &
    5270, // Further 5: +
    5271, // Further 5: -
    5272, // Further 5: *
    5273, // Further 5: /
    5274, // Further 5: %
    5276, // Further 5: endprog
    5290, // Further 5: then
    5291, // Further 5: else
    5292, // Further 5: endif
    5294, // Further 5: do
    5296, // Further 5: endloop
    5299, // Further 5: case
    5300, // Further 5: default
    5301, // Further 5: endswitch
    5304, // Further 5: endparallel
    5306, // Further 5: endproc
];

// Where the row begins that it calls for.
pub const PLACES: [u16; 331] = [
    3, // Program: program
    10, // Declarations: name
    11, // Declarations: input
    11, // Declarations: output
    11, // Declarations: internal
    11, // Declarations: integer
    10, // Declarations: skip
    10, // Declarations: delay
    10, // Declarations: raise
    10, // Declarations: lower
    10, // Declarations: invert
    10, // Declarations: if
    10, // Declarations: while
    10, // Declarations: loop
    10, // Declarations: exit
    10, // Declarations: switch
    10, // Declarations: break
    10, // Declarations: parallel
    15, // Declarations: procedure
    20, // Procedure: name
    25, // Formals: (
    32, // FormalNames: name
    31, // FormalNames: )
    36, // MoreFormals: ,
    35, // MoreFormals: )
    40, // AfterProcedure: name
    41, // AfterProcedure: ;
    40, // AfterProcedure: input
    40, // AfterProcedure: output
    40, // AfterProcedure: internal
    40, // AfterProcedure: integer
    40, // AfterProcedure: skip
    40, // AfterProcedure: delay
    40, // AfterProcedure: raise
    40, // AfterProcedure: lower
    40, // AfterProcedure: invert
    40, // AfterProcedure: if
    40, // AfterProcedure: while
    40, // AfterProcedure: loop
    40, // AfterProcedure: exit
    40, // AfterProcedure: switch
    40, // AfterProcedure: break
    40, // AfterProcedure: parallel
    40, // AfterProcedure: procedure
    43, // Declaration: input
    46, // Declaration: output
    49, // Declaration: internal
    52, // Declaration: integer
    55, // Inputs: name
    59, // MoreInputs: ;
    60, // MoreInputs: ,
    63, // Ending: =
    64, // Ending: .H
    66, // Ending: .L
    63, // Ending: ;
    63, // Ending: ,
    68, // Booleans: name
    73, // MoreBooleans: ;
    74, // MoreBooleans: ,
    78, // BooleanStart: =
    77, // BooleanStart: ;
    77, // BooleanStart: ,
    81, // BooleanValue: true
    83, // BooleanValue: false
    85, // Integers: name
    92, // MoreIntegers: ;
    93, // MoreIntegers: ,
    97, // IntegerStart: =
    96, // IntegerStart: ;
    96, // IntegerStart: ,
    100, // Statements: name
    100, // Statements: skip
    100, // Statements: delay
    100, // Statements: raise
    100, // Statements: lower
    100, // Statements: invert
    100, // Statements: if
    100, // Statements: while
    100, // Statements: loop
    100, // Statements: exit
    100, // Statements: switch
    100, // Statements: break
    100, // Statements: parallel
    103, // AfterStatement: ||
    104, // AfterStatement: ;
    103, // AfterStatement: endprog
    103, // AfterStatement: else
    103, // AfterStatement: endif
    103, // AfterStatement: endloop
    103, // AfterStatement: case
    103, // AfterStatement: default
    103, // AfterStatement: endswitch
    103, // AfterStatement: endparallel
    103, // AfterStatement: endproc
    108, // NextStatement: name
    107, // NextStatement: ||
    107, // NextStatement: endprog
    108, // NextStatement: skip
    108, // NextStatement: delay
    108, // NextStatement: raise
    108, // NextStatement: lower
    108, // NextStatement: invert
    108, // NextStatement: if
    107, // NextStatement: else
    107, // NextStatement: endif
    108, // NextStatement: while
    108, // NextStatement: loop
    107, // NextStatement: endloop
    108, // NextStatement: exit
    108, // NextStatement: switch
    107, // NextStatement: case
    107, // NextStatement: default
    107, // NextStatement: endswitch
    108, // NextStatement: break
    108, // NextStatement: parallel
    107, // NextStatement: endparallel
    107, // NextStatement: endproc
    136, // Statement: name
    110, // Statement: skip
    112, // Statement: delay
    115, // Statement: raise
    122, // Statement: lower
    129, // Statement: invert
    139, // Statement: if
    148, // Statement: while
    157, // Statement: loop
    163, // Statement: exit
    165, // Statement: switch
    178, // Statement: break
    180, // Statement: parallel
    189, // AfterName: :=
    192, // AfterName: (
    199, // Actuals: name
    199, // Actuals: number
    199, // Actuals: !
    199, // Actuals: (
    198, // Actuals: )
    199, // Actuals: true
    199, // Actuals: false
    199, // Actuals: int
    203, // MoreActuals: ,
    202, // MoreActuals: )
    208, // Else: else
    207, // Else: endif
    212, // Cases: case
    211, // Cases: default
    219, // Branches: ||
    218, // Branches: endparallel
    223, // Target: name
    226, // Index: ||
    226, // Index: |
    226, // Index: !=
    226, // Index: ==
    226, // Index: :
    226, // Index: ;
    226, // Index: ,
    226, // Index: )
    227, // Index: [
    226, // Index: >
    226, // Index: <
    226, // Index: &
    226, // Index: +
    226, // Index: -
    226, // Index: *
    226, // Index: /
    226, // Index: %
    226, // Index: endprog
    226, // Index: then
    226, // Index: else
    226, // Index: endif
    226, // Index: do
    226, // Index: endloop
    226, // Index: case
    226, // Index: default
    226, // Index: endswitch
    226, // Index: endparallel
    226, // Index: endproc
    231, // Tier 0: name
    231, // Tier 0: number
    231, // Tier 0: !
    231, // Tier 0: (
    231, // Tier 0: true
    231, // Tier 0: false
    231, // Tier 0: int
    234, // Tier 1: name
    234, // Tier 1: number
    234, // Tier 1: !
    234, // Tier 1: (
    234, // Tier 1: true
    234, // Tier 1: false
    234, // Tier 1: int
    237, // Tier 2: name
    237, // Tier 2: number
    237, // Tier 2: !
    237, // Tier 2: (
    237, // Tier 2: true
    237, // Tier 2: false
    237, // Tier 2: int
    245, // Tier 3: name
    245, // Tier 3: number
    240, // Tier 3: !
    245, // Tier 3: (
    245, // Tier 3: true
    245, // Tier 3: false
    245, // Tier 3: int
    247, // Tier 4: name
    247, // Tier 4: number
    247, // Tier 4: (
    247, // Tier 4: true
    247, // Tier 4: false
    247, // Tier 4: int
    250, // Tier 5: name
    250, // Tier 5: number
    250, // Tier 5: (
    250, // Tier 5: true
    250, // Tier 5: false
    250, // Tier 5: int
    253, // Tier 6: name
    256, // Tier 6: number
    269, // Tier 6: (
    258, // Tier 6: true
    260, // Tier 6: false
    262, // Tier 6: int
    275, // Further 0: ||
    275, // Further 0: :
    275, // Further 0: ;
    275, // Further 0: ,
    275, // Further 0: )
    276, // Further 0: &
    275, // Further 0: endprog
    275, // Further 0: then
    275, // Further 0: else
    275, // Further 0: endif
    275, // Further 0: do
    275, // Further 0: endloop
    275, // Further 0: case
    275, // Further 0: default
    275, // Further 0: endswitch
    275, // Further 0: endparallel
    275, // Further 0: endproc
    280, // Further 1: ||
    281, // Further 1: |
    280, // Further 1: :
    280, // Further 1: ;
    280, // Further 1: ,
    280, // Further 1: )
    280, // Further 1: &
    280, // Further 1: endprog
    280, // Further 1: then
    280, // Further 1: else
    280, // Further 1: endif
    280, // Further 1: do
    280, // Further 1: endloop
    280, // Further 1: case
    280, // Further 1: default
    280, // Further 1: endswitch
    280, // Further 1: endparallel
    280, // Further 1: endproc
    285, // Further 2: ||
    285, // Further 2: |
    290, // Further 2: !=
    286, // Further 2: ==
    285, // Further 2: :
    285, // Further 2: ;
    285, // Further 2: ,
    285, // Further 2: )
    294, // Further 2: >
    298, // Further 2: <
    285, // Further 2: &
    285, // Further 2: endprog
    285, // Further 2: then
    285, // Further 2: else
    285, // Further 2: endif
    285, // Further 2: do
    285, // Further 2: endloop
    285, // Further 2: case
    285, // Further 2: default
    285, // Further 2: endswitch
    285, // Further 2: endparallel
    285, // Further 2: endproc
    302, // Further 4: ||
    302, // Further 4: |
    302, // Further 4: !=
    302, // Further 4: ==
    302, // Further 4: :
    302, // Further 4: ;
    302, // Further 4: ,
    302, // Further 4: )
    302, // Further 4: >
    302, // Further 4: <
    302, // Further 4: &
    303, // Further 4: +
    307, // Further 4: -
    302, // Further 4: endprog
    302, // Further 4: then
    302, // Further 4: else
    302, // Further 4: endif
    302, // Further 4: do
    302, // Further 4: endloop
    302, // Further 4: case
    302, // Further 4: default
    302, // Further 4: endswitch
    302, // Further 4: endparallel
    302, // Further 4: endproc
    311, // Further 5: ||
    311, // Further 5: |
    311, // Further 5: !=
    311, // Further 5: ==
    311, // Further 5: :
    311, // Further 5: ;
    311, // Further 5: ,
    311, // Further 5: )
    311, // Further 5: >
    311, // Further 5: <
    311, // Further 5: &
    311, // Further 5: +
    311, // Further 5: -
    312, // Further 5: *
    316, // Further 5: /
    320, // Further 5: %
    311, // Further 5: endprog
    311, // Further 5: then
    311, // Further 5: else
    311, // Further 5: endif
    311, // Further 5: do
    311, // Further 5: endloop
    311, // Further 5: case
    311, // Further 5: default
    311, // Further 5: endswitch
    311, // Further 5: endparallel
    311, // Further 5: endproc
];
