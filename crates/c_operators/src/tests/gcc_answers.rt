// Written by tools/gcc_types.py with gcc (Debian 12.2.0-14+deb12u1) 12.2.0; that script says how to read it.

pub(super) const SUMS: &str = "\
int ulong int char* int* none int** none int3*
ulong ulong ulong char* int* none int** none int3*
int ulong int char* int* none int** none int3*
char* char* char* none none none none none none
int* int* int* none none none none none none
none none none none none none none none none
int** int** int** none none none none none none
none none none none none none none none none
int3* int3* int3* none none none none none none
";

pub(super) const DIFFERENCES: &str = "\
int ulong int none none none none none none
ulong ulong ulong none none none none none none
int ulong int none none none none none none
char* char* char* none none none none none none
int* int* int* none none none none none none
none none none none none none none none none
int** int** int** none none none none none none
none none none none none none none none none
int3* int3* int3* none none none none none none
";

pub(super) const PRODUCTS: &str = "\
int ulong int none none none none none none
ulong ulong ulong none none none none none none
int ulong int none none none none none none
none none none none none none none none none
none none none none none none none none none
none none none none none none none none none
none none none none none none none none none
none none none none none none none none none
none none none none none none none none none
";

pub(super) const REMAINDERS: &str = "\
int ulong int none none none none none none
ulong ulong ulong none none none none none none
int ulong int none none none none none none
none none none none none none none none none
none none none none none none none none none
none none none none none none none none none
none none none none none none none none none
none none none none none none none none none
none none none none none none none none none
";

pub(super) const SHIFTS: &str = "\
int int int none none none none none none
ulong ulong ulong none none none none none none
int int int none none none none none none
none none none none none none none none none
none none none none none none none none none
none none none none none none none none none
none none none none none none none none none
none none none none none none none none none
none none none none none none none none none
";

pub(super) const UNIONS: &str = "\
int ulong int none none none none none none
ulong ulong ulong none none none none none none
int ulong int none none none none none none
none none none none none none none none none
none none none none none none none none none
none none none none none none none none none
none none none none none none none none none
none none none none none none none none none
none none none none none none none none none
";

pub(super) const ORDERS: &str = "\
int int int none none none none none none
int int int none none none none none none
int int int none none none none none none
none none none none none none none none none
none none none none none none none none none
none none none none none none none none none
none none none none none none none none none
none none none none none none none none none
none none none none none none none none none
";

pub(super) const EQUALITIES: &str = "\
int int int none none none none none none
int int int none none none none none none
int int int int int int int none int
none none int int none int none none none
none none int none int int none none none
none none int int int int int none int
none none int none none int int none none
none none none none none none none none none
none none int none none int none none int
";

pub(super) const LOGICAL: &str = "\
int int int int int int int none int
int int int int int int int none int
int int int int int int int none int
int int int int int int int none int
int int int int int int int none int
int int int int int int int none int
int int int int int int int none int
none none none none none none none none none
int int int int int int int none int
";

pub(super) const SUBSCRIPTS: &str = "\
none none none char int none int* none int*
none none none char int none int* none int*
none none none char int none int* none int*
char char char none none none none none none
int int int none none none none none none
none none none none none none none none none
int* int* int* none none none none none none
none none none none none none none none none
int* int* int* none none none none none none
";

pub(super) const ASSIGNED: &str = "\
int int int none none none none none none
ulong ulong ulong none none none none none none
none none char* char* none char* none none none
none none int* none int* int* none none none
none none void* void* void* void* void* none void*
none none int** none none int** int** none none
none none none none none none none record0 none
none none int3* none none int3* none none int3*
";

pub(super) const ADDED: &str = "\
int int int none none none none none none
ulong ulong ulong none none none none none none
char* char* char* none none none none none none
int* int* int* none none none none none none
none none none none none none none none none
int** int** int** none none none none none none
none none none none none none none none none
int3* int3* int3* none none none none none none
";

pub(super) const MULTIPLIED: &str = "\
int int int none none none none none none
ulong ulong ulong none none none none none none
none none none none none none none none none
none none none none none none none none none
none none none none none none none none none
none none none none none none none none none
none none none none none none none none none
none none none none none none none none none
";

pub(super) const SHIFTED: &str = "\
int int int none none none none none none
ulong ulong ulong none none none none none none
none none none none none none none none none
none none none none none none none none none
none none none none none none none none none
none none none none none none none none none
none none none none none none none none none
none none none none none none none none none
";

pub(super) const SIGNS: &str = "\
int ulong int none none none none none none
";

pub(super) const COMPLEMENTS: &str = "\
int ulong int none none none none none none
";

pub(super) const NEGATIONS: &str = "\
int int int int int int int none int
";

pub(super) const POINTED: &str = "\
none none none char int none int* none int*
";

pub(super) const STEPS: &str = "\
int ulong char* int* none int** none int3*
";
