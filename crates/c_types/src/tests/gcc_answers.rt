// Written by tools/gcc_types.py with gcc (Debian 12.2.0-14+deb12u1) 12.2.0; that script says how to read it.

pub(super) const PROMOTED: &str = "\
int int int int int int int uint long ulong llong ullong
";

pub(super) const COMMON: &str = "\
int int int int int int int uint long ulong llong ullong
int int int int int int int uint long ulong llong ullong
int int int int int int int uint long ulong llong ullong
int int int int int int int uint long ulong llong ullong
int int int int int int int uint long ulong llong ullong
int int int int int int int uint long ulong llong ullong
int int int int int int int uint long ulong llong ullong
uint uint uint uint uint uint uint uint long ulong llong ullong
long long long long long long long long long ulong llong ullong
ulong ulong ulong ulong ulong ulong ulong ulong ulong ulong ullong ullong
llong llong llong llong llong llong llong llong llong ullong llong ullong
ullong ullong ullong ullong ullong ullong ullong ullong ullong ullong ullong ullong
";

pub(super) const CONSTANTS: &str = "\
int long long long long none none none
uint uint uint ulong ulong ulong ulong none
long long long long long none none none
ulong ulong ulong ulong ulong ulong ulong none
llong llong llong llong llong none none none
ullong ullong ullong ullong ullong ullong ullong none
int uint uint long long ulong ulong none
uint uint uint ulong ulong ulong ulong none
long long long long long ulong ulong none
ulong ulong ulong ulong ulong ulong ulong none
llong llong llong llong llong ullong ullong none
ullong ullong ullong ullong ullong ullong ullong none
int uint uint long long ulong ulong none
uint uint uint ulong ulong ulong ulong none
long long long long long ulong ulong none
ulong ulong ulong ulong ulong ulong ulong none
llong llong llong llong llong ullong ullong none
ullong ullong ullong ullong ullong ullong ullong none
";

pub(super) const CONVERTS: &str = "\
yes yes no no no no no no no no no no no no no
yes yes no no no no no no no no no no no no no
yes yes yes yes yes yes yes yes yes no no no yes yes yes
no no yes yes yes yes yes yes yes no no no yes yes yes
no no yes no no no yes no no no no no no no no
no no no yes no no yes no no no no no no no no
no no no no yes no yes no no no no no no no no
no no no no no yes yes no no no no no no no no
no no yes yes yes yes yes yes yes no no no yes yes yes
no no no no no no yes yes no no no no no no no
no no no no no no yes no yes no no no no no no
no no no no no no no no no yes no no no no no
no no no no no no no no no no yes no no no no
no no no no no no no no no no no yes no no no
no no no no no no yes no no no no no yes no no
no no no no no no yes no no no no no no yes no
no no no no no no yes no no no no no no no yes
";

pub(super) const COMPARABLE: &str = "\
yes yes yes no no no no no no no no no no no no no no
yes yes yes no no no no no no no no no no no no no no
yes yes yes yes yes yes yes yes yes yes yes no no no yes yes yes
no no yes yes yes yes yes yes yes yes yes no no no yes yes yes
no no yes yes yes no no no yes no no no no no no no no
no no yes yes no yes no no yes no no no no no no no no
no no yes yes no no yes no yes no no no no no no no no
no no yes yes no no no yes yes no no no no no no no no
no no yes yes yes yes yes yes yes yes yes no no no yes yes yes
no no yes yes no no no no yes yes no no no no no no no
no no yes yes no no no no yes no yes no no no no no no
no no no no no no no no no no no no no no no no no
no no no no no no no no no no no no no no no no no
no no no no no no no no no no no no no no no no no
no no yes yes no no no no yes no no no no no yes no no
no no yes yes no no no no yes no no no no no no yes no
no no yes yes no no no no yes no no no no no no no yes
";

pub(super) const CONDITIONAL: &str = "\
int ulong int none none none none none none none none none none none none none none
ulong ulong ulong none none none none none none none none none none none none none none
int ulong int void* char* uchar* int* uint* void* int** void** none none none record0* record1* int3*
none none void* void* char* uchar* int* uint* void* int** void** none none none record0* record1* int3*
none none char* char* char* none none none void* none none none none none none none none
none none uchar* uchar* none uchar* none none void* none none none none none none none none
none none int* int* none none int* none void* none none none none none none none none
none none uint* uint* none none none uint* void* none none none none none none none none
none none void* void* void* void* void* void* void* void* void* none none none void* void* void*
none none int** int** none none none none void* int** none none none none none none none
none none void** void** none none none none void* none void** none none none none none none
none none none none none none none none none none none record0 none none none none none
none none none none none none none none none none none none record1 none none none none
none none none none none none none none none none none none none record2 none none none
none none record0* record0* none none none none void* none none none none none record0* none none
none none record1* record1* none none none none void* none none none none none none record1* none
none none int3* int3* none none none none void* none none none none none none none int3*
";
