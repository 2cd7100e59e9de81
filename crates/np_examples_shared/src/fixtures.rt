//! Small files for tests, in the formats of UnicodeData.txt and CompositionExclusions.txt (UAX #44).
//!
//! The same texts lie in the folder `fixtures/` of the repository.

/// 17,660 assigned code points, all Hangul syllables and their jamo among them.
pub const V1_DATA: &str = "\
0041;X;Lu;0;L;;;;;N;;;;;
0061;X;Ll;0;L;;;;;N;;;;;
0066;X;Ll;0;L;;;;;N;;;;;
0069;X;Ll;0;L;;;;;N;;;;;
00C5;X;Lu;0;L;0041 030A;;;;N;;;;;
00E2;X;Ll;0;L;0061 0302;;;;N;;;;;
0301;X;Mn;230;L;;;;;N;;;;;
0302;X;Mn;230;L;;;;;N;;;;;
0308;X;Mn;230;L;;;;;N;;;;;
030A;X;Mn;230;L;;;;;N;;;;;
0323;X;Mn;220;L;;;;;N;;;;;
0327;X;Mn;202;L;;;;;N;;;;;
0344;X;Mn;230;L;0308 0301;;;;N;;;;;
0915;X;Lo;0;L;;;;;N;;;;;
093C;X;Mn;7;L;;;;;N;;;;;
0958;X;Lo;0;L;0915 093C;;;;N;;;;;
1100;<R, First>;Lo;0;L;;;;;N;;;;;
1112;<R, Last>;Lo;0;L;;;;;N;;;;;
1161;<R, First>;Lo;0;L;;;;;N;;;;;
1175;<R, Last>;Lo;0;L;;;;;N;;;;;
11A7;X;Lo;0;L;;;;;N;;;;;
11A8;<R, First>;Lo;0;L;;;;;N;;;;;
11C2;<R, Last>;Lo;0;L;;;;;N;;;;;
1EA1;X;Ll;0;L;0061 0323;;;;N;;;;;
1EAD;X;Ll;0;L;1EA1 0302;;;;N;;;;;
212B;X;Lu;0;L;00C5;;;;N;;;;;
AC00;<R, First>;Lo;0;L;;;;;N;;;;;
D7A3;<R, Last>;Lo;0;L;;;;;N;;;;;
E000;<R, First>;Co;0;L;;;;;N;;;;;
F8FF;<R, Last>;Co;0;L;;;;;N;;;;;
FB01;X;Ll;0;L;<compat> 0066 0069;;;;N;;;;;
";

/// One exclusion.
pub const V1_EXCLUSIONS: &str = "\
0958
";

/// `V1_DATA` with six more code points. It extends `V1_DATA`.
pub const V2_DATA: &str = "\
0041;X;Lu;0;L;;;;;N;;;;;
0061;X;Ll;0;L;;;;;N;;;;;
0066;X;Ll;0;L;;;;;N;;;;;
0069;X;Ll;0;L;;;;;N;;;;;
00C5;X;Lu;0;L;0041 030A;;;;N;;;;;
00E2;X;Ll;0;L;0061 0302;;;;N;;;;;
0301;X;Mn;230;L;;;;;N;;;;;
0302;X;Mn;230;L;;;;;N;;;;;
0308;X;Mn;230;L;;;;;N;;;;;
030A;X;Mn;230;L;;;;;N;;;;;
0323;X;Mn;220;L;;;;;N;;;;;
0327;X;Mn;202;L;;;;;N;;;;;
0344;X;Mn;230;L;0308 0301;;;;N;;;;;
0915;X;Lo;0;L;;;;;N;;;;;
093C;X;Mn;7;L;;;;;N;;;;;
0958;X;Lo;0;L;0915 093C;;;;N;;;;;
1100;<R, First>;Lo;0;L;;;;;N;;;;;
1112;<R, Last>;Lo;0;L;;;;;N;;;;;
1161;<R, First>;Lo;0;L;;;;;N;;;;;
1175;<R, Last>;Lo;0;L;;;;;N;;;;;
11A7;X;Lo;0;L;;;;;N;;;;;
11A8;<R, First>;Lo;0;L;;;;;N;;;;;
11C2;<R, Last>;Lo;0;L;;;;;N;;;;;
1DFA;X;Mn;218;L;;;;;N;;;;;
1EA1;X;Ll;0;L;0061 0323;;;;N;;;;;
1EAD;X;Ll;0;L;1EA1 0302;;;;N;;;;;
212B;X;Lu;0;L;00C5;;;;N;;;;;
AC00;<R, First>;Lo;0;L;;;;;N;;;;;
D7A3;<R, Last>;Lo;0;L;;;;;N;;;;;
E000;<R, First>;Co;0;L;;;;;N;;;;;
F8FF;<R, Last>;Co;0;L;;;;;N;;;;;
FB01;X;Ll;0;L;<compat> 0066 0069;;;;N;;;;;
16D63;X;Lo;0;L;;;;;N;;;;;
16D67;X;Lo;0;L;;;;;N;;;;;
16D68;X;Lo;0;L;16D67 16D67;;;;N;;;;;
16D69;X;Lo;0;L;16D63 16D67;;;;N;;;;;
16D6A;X;Lo;0;L;16D69 16D67;;;;N;;;;;
";

/// The exclusion of `V1_EXCLUSIONS`.
pub const V2_EXCLUSIONS: &str = "\
0958
";

/// A pair whose first part is a composite: F000 maps to 00C5 0323. It has no Hangul syllable.
pub const S_DATA: &str = "\
0041;X;Lu;0;L;;;;;N;;;;;
00C5;X;Lu;0;L;0041 030A;;;;N;;;;;
030A;X;Mn;230;L;;;;;N;;;;;
0323;X;Mn;220;L;;;;;N;;;;;
F000;X;Lo;0;L;00C5 0323;;;;N;;;;;
";

/// No exclusion.
pub const S_EXCLUSIONS: &str = "";
