//! An image of four entries in the first layout that is cut and forged, and what restoring answers, both under the
//! first fixture's version. `tests/models/forged_images.py` writes this file from the format alone.

/// The image, in hex digits.
pub const IMAGE: &str =
    "4e505331430000000400000000000000000000000361cc8200000002c3a200000003e284ab00000002c38500000001410000000141";

/// A row for each change of the image, with `; ` between rows: the place, how many bytes go, those that come instead in
/// hex digits (`-` for none, several ways divided by commas), and what restoring with a room of 5 answers; behind
/// `restored` the image of the node.
pub const ANSWERS: &str = "\
0 53 - malformed at byte 0; 0 1 00,01,4d,4f,7f,80,ff malformed at byte 0; 1 52 - malformed at byte 0; 1 1 \
00,01,4f,51,7f,80,ff malformed at byte 0; 2 51 - malformed at byte 0; 2 1 00,01,52,54,7f,80,ff malformed at byte 0; \
3 50 - malformed at byte 0; 3 1 00,01,30 malformed at byte 0; 3 1 32 malformed at byte 13; 3 1 7f,80,ff malformed \
at byte 0; 4 49 - malformed at byte 4; 4 1 00,01,42 malformed at byte 4; 4 1 44 another form; 4 1 7f,80,ff \
malformed at byte 4; 5 48 - malformed at byte 5; 5 1 00 restored \
4e50533243000044fc0000000400000000000000000361cc820100000002c3a200000003e284ab0100000002c385000000014100; 5 1 \
01,7f,80,ff malformed at byte 53; 6 47 - malformed at byte 5; 6 1 01,7f,80,ff malformed at byte 53; 7 46 - \
malformed at byte 5; 7 1 01,7f,80,ff malformed at byte 53; 8 45 - malformed at byte 5; 8 1 00 malformed at byte 9; \
8 1 01 malformed at byte 17; 8 1 03 malformed at byte 43; 8 1 05,7f,80,ff malformed at byte 53; 9 44 - malformed at \
byte 9; 9 1 01,7f,80,ff malformed at byte 13; 10 43 - malformed at byte 9; 10 1 01,7f,80,ff malformed at byte 13; \
11 42 - malformed at byte 9; 11 1 01,7f,80,ff malformed at byte 13; 12 41 - malformed at byte 9; 12 1 01 malformed \
at byte 22; 12 1 7f,80,ff malformed at byte 13; 13 40 - malformed at byte 13; 13 1 01,7f,80,ff malformed at byte \
17; 14 39 - malformed at byte 13; 14 1 01,7f,80,ff malformed at byte 17; 15 38 - malformed at byte 13; 15 1 \
01,7f,80,ff malformed at byte 17; 16 37 - malformed at byte 13; 16 1 01 malformed at byte 22; 16 1 7f,80,ff \
malformed at byte 17; 17 36 - malformed at byte 17; 17 1 01,7f,80,ff malformed at byte 21; 18 35 - malformed at \
byte 17; 18 1 01,7f,80,ff malformed at byte 21; 19 34 - malformed at byte 17; 19 1 01,7f,80,ff malformed at byte \
21; 20 33 - malformed at byte 17; 20 1 00 malformed at byte 25; 20 1 01 malformed at byte 26; 20 1 02 malformed at \
byte 27; 20 1 04 malformed at byte 29; 20 1 7f,80,ff malformed at byte 21; 21 32 - malformed at byte 21; 21 1 00 \
entry 1: unassigned 0000 at byte 0; 21 1 01 entry 1: unassigned 0001 at byte 0; 21 1 60 entry 1: unassigned 0060 at \
byte 0; 21 1 62 entry 1: unassigned 0062 at byte 0; 21 1 7f entry 1: unassigned 007F at byte 0; 21 1 80,ff entry 1: \
not UTF-8 at byte 0; 22 31 - malformed at byte 21; 22 1 00,01,7f entry 1: not UTF-8 at byte 2; 22 1 80 entry 1: not \
UTF-8 at byte 1; 22 1 cb entry 1: unassigned 02C2 at byte 1; 22 1 cd entry 1: unassigned 0342 at byte 1; 22 1 ff \
entry 1: not UTF-8 at byte 1; 23 30 - malformed at byte 21; 23 1 00,01,7f entry 1: not UTF-8 at byte 1; 23 1 80 \
entry 1: unassigned 0300 at byte 1; 23 1 81 entry 1: key differs; 23 1 83 entry 1: unassigned 0303 at byte 1; 23 1 \
ff entry 1: not UTF-8 at byte 1; 24 29 - malformed at byte 24; 24 1 01,7f,80,ff malformed at byte 28; 25 28 - \
malformed at byte 24; 25 1 01,7f,80,ff malformed at byte 28; 26 27 - malformed at byte 24; 26 1 01,7f,80,ff \
malformed at byte 28; 27 26 - malformed at byte 24; 27 1 00 malformed at byte 32; 27 1 01 malformed at byte 33; 27 \
1 03 malformed at byte 35; 27 1 7f,80,ff malformed at byte 28; 28 25 - malformed at byte 28; 28 1 \
00,01,7f,80,c2,c4,ff entry 1: key differs; 29 24 - malformed at byte 28; 29 1 00,01,7f,80,a1,a3,ff entry 1: key \
differs; 30 23 - malformed at byte 30; 30 1 01,7f,80,ff malformed at byte 34; 31 22 - malformed at byte 30; 31 1 \
01,7f,80,ff malformed at byte 34; 32 21 - malformed at byte 30; 32 1 01,7f,80,ff malformed at byte 34; 33 20 - \
malformed at byte 30; 33 1 00 malformed at byte 38; 33 1 01 malformed at byte 39; 33 1 02 malformed at byte 40; 33 \
1 04 malformed at byte 42; 33 1 7f,80,ff malformed at byte 34; 34 19 - malformed at byte 34; 34 1 00,01,7f entry 2: \
not UTF-8 at byte 1; 34 1 80 entry 2: not UTF-8 at byte 0; 34 1 e1 entry 2: unassigned 112B at byte 0; 34 1 e3 \
entry 2: unassigned 312B at byte 0; 34 1 ff entry 2: not UTF-8 at byte 0; 35 18 - malformed at byte 34; 35 1 \
00,01,7f entry 2: not UTF-8 at byte 0; 35 1 80 entry 2: unassigned 202B at byte 0; 35 1 83 entry 2: unassigned 20EB \
at byte 0; 35 1 85 entry 2: unassigned 216B at byte 0; 35 1 ff entry 2: not UTF-8 at byte 0; 36 17 - malformed at \
byte 34; 36 1 00,01,7f entry 2: not UTF-8 at byte 0; 36 1 80 entry 2: unassigned 2100 at byte 0; 36 1 aa entry 2: \
unassigned 212A at byte 0; 36 1 ac entry 2: unassigned 212C at byte 0; 36 1 ff entry 2: not UTF-8 at byte 0; 37 16 \
- malformed at byte 37; 37 1 01,7f,80,ff malformed at byte 41; 38 15 - malformed at byte 37; 38 1 01,7f,80,ff \
malformed at byte 41; 39 14 - malformed at byte 37; 39 1 01,7f,80,ff malformed at byte 41; 40 13 - malformed at \
byte 37; 40 1 00 malformed at byte 45; 40 1 01 malformed at byte 46; 40 1 03 malformed at byte 48; 40 1 7f,80,ff \
malformed at byte 41; 41 12 - malformed at byte 41; 41 1 00,01,7f,80,c2,c4,ff entry 2: key differs; 42 11 - \
malformed at byte 41; 42 1 00,01,7f,80,84,86,ff entry 2: key differs; 43 10 - malformed at byte 43; 43 1 \
01,7f,80,ff malformed at byte 47; 44 9 - malformed at byte 43; 44 1 01,7f,80,ff malformed at byte 47; 45 8 - \
malformed at byte 43; 45 1 01,7f,80,ff malformed at byte 47; 46 7 - malformed at byte 43; 46 1 00 malformed at byte \
51; 46 1 02 malformed at byte 53; 46 1 7f,80,ff malformed at byte 47; 47 6 - malformed at byte 47; 47 1 00 entry 3: \
unassigned 0000 at byte 0; 47 1 01 entry 3: unassigned 0001 at byte 0; 47 1 40 entry 3: unassigned 0040 at byte 0; \
47 1 42 entry 3: unassigned 0042 at byte 0; 47 1 7f entry 3: unassigned 007F at byte 0; 47 1 80,ff entry 3: not \
UTF-8 at byte 0; 48 5 - malformed at byte 48; 48 1 01,7f,80,ff malformed at byte 52; 49 4 - malformed at byte 48; \
49 1 01,7f,80,ff malformed at byte 52; 50 3 - malformed at byte 48; 50 1 01,7f,80,ff malformed at byte 52; 51 2 - \
malformed at byte 48; 51 1 00,02,7f,80,ff malformed at byte 52; 52 1 - malformed at byte 52; 52 1 \
00,01,40,42,7f,80,ff entry 3: key differs; 5 4 7fffffff,ffffffff malformed at byte 53; 9 4 7fffffff,ffffffff \
malformed at byte 13; 13 4 7fffffff,ffffffff malformed at byte 17; 17 4 7fffffff,ffffffff malformed at byte 21; 24 \
4 7fffffff,ffffffff malformed at byte 28; 30 4 7fffffff,ffffffff malformed at byte 34; 37 4 7fffffff,ffffffff \
malformed at byte 41; 43 4 7fffffff,ffffffff malformed at byte 47; 48 4 7fffffff,ffffffff malformed at byte 52; 0 5 \
434e505331 malformed at byte 0; 0 9 00000004434e505331 malformed at byte 0; 0 13 \
0000000043000000044e505331,4300000004000000004e505331 malformed at byte 0; 4 5 0000000443 malformed at byte 4; 4 9 \
000000000000000443,000000040000000043 malformed at byte 4; 4 13 00000000000000040000000043 malformed at byte 4; 5 8 \
0000000000000004 malformed at byte 9; 5 12 000000000000000000000004 malformed at byte 9; 9 12 \
000000030000000000000000 malformed at byte 24; 13 8 0000000300000000 malformed at byte 24; 13 11 \
61cc820000000000000003,61cc820000000300000000 malformed at byte 17; 13 15 000000020000000361cc8200000000 malformed \
at byte 23; 17 7 61cc8200000003 malformed at byte 21; 17 11 000000020000000361cc82 malformed at byte 27; 17 13 \
c3a20000000361cc8200000002 malformed at byte 21; 17 11 0000000261cc8200000003 malformed at byte 27; 17 13 \
c3a261cc820000000200000003 malformed at byte 21; 21 7 0000000261cc82 malformed at byte 28; 21 9 c3a20000000261cc82 \
malformed at byte 28; 21 13 0000000300000002c3a261cc82 malformed at byte 28; 21 16 e284ab00000002c3a20000000361cc82 \
entry 1: key differs; 24 6 c3a200000002 malformed at byte 28; 24 10 00000003c3a200000002 malformed at byte 35; 24 \
13 e284abc3a20000000300000002 malformed at byte 28; 28 6 00000003c3a2 malformed at byte 34; 28 9 e284ab00000003c3a2 \
malformed at byte 34; 28 13 0000000200000003e284abc3a2 malformed at byte 34; 28 15 c38500000003e284ab00000002c3a2 \
entry 1: key differs; 30 7 e284ab00000003 malformed at byte 34; 30 11 00000002e284ab00000003 malformed at byte 40; \
30 13 c385e284ab0000000200000003 malformed at byte 34; 30 17 00000001e284ab00000002c38500000003 malformed at byte \
39; 34 7 00000002e284ab malformed at byte 41; 34 9 c38500000002e284ab malformed at byte 41; 34 13 \
0000000100000002c385e284ab malformed at byte 41; 34 14 4100000002c38500000001e284ab malformed at byte 41; 37 6 \
c38500000002 malformed at byte 41; 37 10 00000001c38500000002 malformed at byte 46; 37 11 41c3850000000100000002 \
malformed at byte 41; 37 15 00000001c385000000014100000002 malformed at byte 46; 41 6 00000001c385 malformed at \
byte 47; 41 7 4100000001c385 malformed at byte 47; 41 11 000000010000000141c385 malformed at byte 47; 41 12 \
41000000014100000001c385 malformed at byte 47; 43 5 4100000001 malformed at byte 47; 43 10 41410000000100000001 \
malformed at byte 47; 47 5 0000000141 malformed at byte 52; 48 5 4100000001 malformed at byte 52; 8 45 \
0500000000000000000000000361cc8200000002c3a200000003e284ab00000002c385000000014100000001410000000000000000 entry 4: \
malformed at byte 53; 53 0 0000000000000000 malformed at byte 53; 8 9 03 restored \
4e50533243000044fc000000030000000361cc820100000002c3a200000003e284ab0100000002c385000000014100; 12 8 - malformed at \
byte 45; 8 45 \
0600000000000000000000000361cc8200000002c3a200000003e284ab00000002c3850000000141000000014100000000000000000000000000000000 \
full; 53 0 00000000000000000000000000000000 malformed at byte 53; 12 18 0361cc8200000002c3a20000000000000000 \
restored 4e50533243000044fc000000040000000361cc820100000002c3a2000000000000000003e284ab0100000002c385000000014100; \
8 45 \
0500000000000000000000000361cc8200000002c3a200000003e284ab00000002c385000000014100000001410000000361cc8200000002c3a2 \
entry 4: malformed at byte 53; 53 0 0000000361cc8200000002c3a2 malformed at byte 53; 8 22 030000000000000000 \
restored 4e50533243000044fc00000003000000000000000003e284ab0100000002c385000000014100; 21 13 - malformed at byte \
40; 8 45 \
0600000000000000000000000361cc8200000002c3a200000003e284ab00000002c385000000014100000001410000000361cc8200000002c3a20000000361cc8200000002c3a2 \
full; 53 0 0000000361cc8200000002c3a20000000361cc8200000002c3a2 malformed at byte 53; 20 10 02c3a20000000361cc82 \
entry 1: key differs; 21 22 e284ab00000002c3850000000361cc8200000002c3a2 restored \
4e50533243000044fc00000004000000000000000003e284ab0100000002c3850000000361cc820100000002c3a2000000014100; 8 45 \
0500000000000000000000000361cc8200000002c3a200000003e284ab00000002c3850000000141000000014100000003e284ab00000002c385 \
entry 4: malformed at byte 53; 53 0 00000003e284ab00000002c385 malformed at byte 53; 8 35 \
0300000000000000000000000361cc8200000002c3a2 restored \
4e50533243000044fc0000000300000000000000000361cc820100000002c3a2000000014100; 33 13 - malformed at byte 40; 8 45 \
0600000000000000000000000361cc8200000002c3a200000003e284ab00000002c3850000000141000000014100000003e284ab00000002c38500000003e284ab00000002c385 \
full; 53 0 00000003e284ab00000002c38500000003e284ab00000002c385 malformed at byte 53; 33 10 02c38500000003e284ab \
entry 2: key differs; 33 20 0141000000014100000003e284ab00000002c385 restored \
4e50533243000044fc0000000400000000000000000361cc820100000002c3a200000001410000000003e284ab0100000002c385; 8 35 \
0500000000000000000000000361cc8200000002c3a200000003e284ab00000002c38500000001410000000141 entry 4: malformed at \
byte 53; 53 0 00000001410000000141 malformed at byte 53; 8 45 \
0300000000000000000000000361cc8200000002c3a200000003e284ab00000002c385 restored \
4e50533243000044fc0000000300000000000000000361cc820100000002c3a200000003e284ab0100000002c385; 8 35 \
0600000000000000000000000361cc8200000002c3a200000003e284ab00000002c3850000000141000000014100000001410000000141 \
full; 53 0 0000000141000000014100000001410000000141 malformed at byte 53";
