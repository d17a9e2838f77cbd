use crate::tests::expect_rows;
use std::test::Fail;

#[test]
fn declarations_at_file_scope_are_read(rt: HostRuntime) -> Result<(), Fail> {
    expect_rows(
        &rt,
        rt.alloc(),
        &[
            ("", ""),
            ("int f(void);", "int f();"),
            ("int f(int);", "int f(int ,);"),
            ("int f(int a, char *b);", "int f(int a,char *b,);"),
            ("int *f(void *);", "int *f(void *,);"),
            (
                "int f(int [3], int *[2][4]);",
                "int f(int [1],int *[1][1],);",
            ),
            ("int f(void), g(int a);", "int f() g(int a,);"),
            ("void f(const int * restrict p);", "void f(int *p,);"),
            ("static int f(void);", "int f();"),
            ("extern inline int f(void);", "int f();"),
            ("int static f(void);", "int f();"),
            (
                "int f(struct s a, union u *b, enum e c);",
                "int f(struct s a,union u *b,enum e c,);",
            ),
            ("struct s;", "struct s;"),
            ("union u;", "union u;"),
            ("enum e;", "enum e;"),
            ("const struct s;", "struct s;"),
            ("struct s { int a; };", "struct s{int a;};"),
            (
                "struct s { int a, *b, c[2]; char d; };",
                "struct s{int a *b c[1];char d;};",
            ),
            (
                "union u { int a; struct t { int b; } c; };",
                "union u{int a;struct t{int b;} c;};",
            ),
            (
                "struct s { struct t { int b; }; };",
                "struct s{struct t{int b;};};",
            ),
            (
                "struct s { struct s *next; };",
                "struct s{struct s *next;};",
            ),
            ("struct s { enum e { A } a; };", "struct s{enum e{A,} a;};"),
            ("struct s { int a; } f(void);", "struct s{int a;} f();"),
            ("enum e { A, B = 1, C };", "enum e{A,B=1,C,};"),
            ("enum e { A, };", "enum e{A,};"),
            ("enum { A };", "enum {A,};"),
            ("enum { A } f(void);", "enum {A,} f();"),
            ("typedef int t;", "typedef int t;"),
            ("typedef int t, *p, a[1];", "typedef int t *p a[1];"),
            ("int typedef t;", "typedef int t;"),
            (
                "typedef int t; t f(t);",
                "typedef int t;named t f(named t ,);",
            ),
            (
                "typedef struct s { int a; } s; s f(s s);",
                "typedef struct s{int a;} s;named s f(named s s,);",
            ),
            (
                "typedef unsigned t; const t f(void);",
                "typedef uint t;named t f();",
            ),
            ("#include <stddef.h>\nsize_t f(void);", "header size_t f();"),
            ("#include <stdbool.h>\nbool f(void);", "bool f();"),
            ("#include <stdint.h>\nuint8_t f(void);", "header f();"),
            ("_Bool f(void);", "bool f();"),
        ],
    )
}

#[test]
fn integer_types_are_read_in_any_order(rt: HostRuntime) -> Result<(), Fail> {
    expect_rows(
        &rt,
        rt.alloc(),
        &[
            ("char f(void);", "char f();"),
            ("signed char f(void);", "schar f();"),
            ("char unsigned f(void);", "uchar f();"),
            ("short int f(void);", "short f();"),
            ("int short signed f(void);", "short f();"),
            ("unsigned short f(void);", "ushort f();"),
            ("signed f(void);", "int f();"),
            ("unsigned f(void);", "uint f();"),
            ("long f(void);", "long f();"),
            ("long int unsigned f(void);", "ulong f();"),
            ("long long f(void);", "llong f();"),
            ("long const int long f(void);", "llong f();"),
            ("unsigned long int long f(void);", "ullong f();"),
        ],
    )
}

#[test]
fn functions_are_read(rt: HostRuntime) -> Result<(), Fail> {
    expect_rows(
        &rt,
        rt.alloc(),
        &[
            ("int f(void) { }", "define int f(){}"),
            ("int f(void) { return 7; }", "define int f(){return 1;}"),
            (
                "void f(int a) { return; }",
                "define void f(int a,){return ;}",
            ),
            (
                "static int *f(int a, int b[2]) { a; }",
                "define int *f(int a,int b[1],){a;}",
            ),
            (
                "struct s { int a; } f(void) { }",
                "define struct s{int a;} f(){}",
            ),
            (
                "int f(void) { } int g(void) { }",
                "define int f(){}define int g(){}",
            ),
            ("int f(void) { f(); }", "define int f(){f();}"),
            (
                "typedef int t; int f(int t) { t; }",
                "typedef int t;define int f(int t,){t;}",
            ),
            (
                "typedef int t; int t(void) { t(); }",
                "typedef int t;define int t(){t();}",
            ),
        ],
    )
}

#[test]
fn statements_are_read(rt: HostRuntime) -> Result<(), Fail> {
    expect_rows(
        &rt,
        rt.alloc(),
        &[
            ("int f(void) { ; }", "define int f(){;}"),
            ("int f(void) { { a; } { } }", "define int f(){{a;}{}}"),
            ("int f(void) { a = b; }", "define int f(){a=b;}"),
            ("int f(void) { int a; }", "define int f(){int a;}"),
            (
                "int f(void) { int a = 1, *b = NULL_; }",
                "define int f(){int a=1 *b=NULL_;}",
            ),
            (
                "int f(void) { int a[2], g(int); }",
                "define int f(){int a[1] g(int ,);}",
            ),
            (
                "int f(void) { struct s; enum e { A }; }",
                "define int f(){struct s;enum e{A,};}",
            ),
            (
                "int f(void) { typedef int t; t a; }",
                "define int f(){typedef int t;named t a;}",
            ),
            ("int f(void) { a; int b; b; }", "define int f(){a;int b;b;}"),
            ("int f(void) { if (a) b; }", "define int f(){if a b;}"),
            (
                "int f(void) { if (a) b; else c; }",
                "define int f(){if a b;else c;}",
            ),
            (
                "int f(void) { if (a) if (b) c; else d; }",
                "define int f(){if a if b c;else d;}",
            ),
            (
                "int f(void) { if (a) { if (b) c; } else d; }",
                "define int f(){if a {if b c;}else d;}",
            ),
            (
                "int f(void) { if (a) b; else if (c) d; else e; }",
                "define int f(){if a b;else if c d;else e;}",
            ),
            ("int f(void) { while (a) b; }", "define int f(){while a b;}"),
            (
                "int f(void) { while (a) if (b) break; else continue; }",
                "define int f(){while a if b break;else continue;}",
            ),
            (
                "int f(void) { do a; while (b); }",
                "define int f(){do a;until not b }",
            ),
            (
                "int f(void) { do { break; } while (b); c; }",
                "define int f(){do {break;}until not b c;}",
            ),
            ("int f(void) { for (;;) a; }", "define int f(){for(||)a;}"),
            (
                "int f(void) { for (a = 1; b; c) ; }",
                "define int f(){for(a=1|b|c);}",
            ),
            (
                "int f(void) { for (int a = 1; a; ) { continue; } }",
                "define int f(){for(int a=1;|a|){continue;}}",
            ),
            (
                "int f(void) { for (int a = 1, *b; a; ) break; }",
                "define int f(){for(int a=1 *b;|a|)break;}",
            ),
            (
                "int f(void) { switch (a) { } }",
                "define int f(){switch a {}}",
            ),
            (
                "int f(void) { switch (a) { case 1: b; break; default: c; } }",
                "define int f(){switch a {case 1:b;break;default:c;}}",
            ),
            (
                "int f(void) { switch (a) { case 1: case 1 + 1: default: ; } }",
                "define int f(){switch a {case 1:case <1 1>:default:;}}",
            ),
            (
                "int f(void) { switch (a) { case 1: { b; } } }",
                "define int f(){switch a {case 1:{b;}}}",
            ),
            (
                "int f(void) { switch (a) { int b; case 1: b; } }",
                "define int f(){switch a {int b;case 1:b;}}",
            ),
            (
                "int f(void) { switch (a) { case 1: if (b) break; c; } }",
                "define int f(){switch a {case 1:if b break;c;}}",
            ),
            (
                "int f(void) { while (a) switch (b) { case 1: continue; } }",
                "define int f(){while a switch b {case 1:continue;}}",
            ),
            (
                "int f(void) { return a, b; }",
                "define int f(){return other;}",
            ),
            ("int f(void) { return (a); }", "define int f(){return (a);}"),
        ],
    )
}

/// C11 6.2.1: a declaration counts from behind its declarator on up to the end of its block.
#[test]
fn names_of_types_are_told_by_their_scopes(rt: HostRuntime) -> Result<(), Fail> {
    expect_rows(
        &rt,
        rt.alloc(),
        &[
            (
                "typedef int t; int f(void) { t *a; }",
                "typedef int t;define int f(){named t *a;}",
            ),
            ("int f(void) { t *a; }", "define int f(){<t a>;}"),
            (
                "typedef int t; int f(void) { int t; t *a; }",
                "typedef int t;define int f(){int t;<t a>;}",
            ),
            (
                "typedef int t; int f(int t) { t *a; }",
                "typedef int t;define int f(int t,){<t a>;}",
            ),
            (
                "typedef int t; int f(void) { { int t; } t *a; }",
                "typedef int t;define int f(){{int t;}named t *a;}",
            ),
            (
                "int f(void) { { typedef int t; t a; } t *a; }",
                "define int f(){{typedef int t;named t a;}<t a>;}",
            ),
            (
                "int f(void) { typedef int t; } int g(void) { t *a; }",
                "define int f(){typedef int t;}define int g(){<t a>;}",
            ),
            (
                "typedef int t; int f(int t); int g(void) { t *a; }",
                "typedef int t;int f(int t,);define int g(){named t *a;}",
            ),
            (
                "typedef int t; int f(void) { for (int t;;) t * a; t *a; }",
                "typedef int t;define int f(){for(int t;||)<t a>;named t *a;}",
            ),
            (
                "typedef int t; int f(void) { if ((enum { t }) 1) t * a; t *a; }",
                "typedef int t;define int f(){if cast 1 <t a>;named t *a;}",
            ),
            (
                "typedef int t; int f(void) { enum { t }; t * a; }",
                "typedef int t;define int f(){enum {t,};<t a>;}",
            ),
            (
                "typedef int t; int f(void) { t t; t * a; }",
                "typedef int t;define int f(){named t t;<t a>;}",
            ),
            (
                "typedef int t; int f(void) { int t = sizeof(t); }",
                "typedef int t;define int f(){int t=sizeof expression;}",
            ),
            (
                "typedef int t; int f(void) { sizeof(t); }",
                "typedef int t;define int f(){sizeof type;}",
            ),
            (
                "typedef int t; struct s { t t; t u; };",
                "typedef int t;struct s{named t t;named t u;};",
            ),
            (
                "typedef int t; int f(void) { (t) 1; (a) - 1; (t) - 1; }",
                "typedef int t;define int f(){cast 1;<(a) 1>;cast unary 1;}",
            ),
            (
                "#include <stddef.h>\nint f(void) { int size_t; size_t * a; }",
                "define int f(){int size_t;<size_t a>;}",
            ),
        ],
    )
}

#[test]
fn attributes_are_kept_where_they_may_stand(rt: HostRuntime) -> Result<(), Fail> {
    expect_rows(
        &rt,
        rt.alloc(),
        &[
            (
                "[[rc::returns(\"int\")]] int f(void);",
                "@returns'int int f();",
            ),
            (
                "[[rc::a(\"x\", \"y\")]] [[rc::b]] int f(void) { }",
                "@a'x'y @b define int f(){}",
            ),
            ("[[rc::a, rc::b(\"z\")]] struct s;", "@a @b'z struct s;"),
            (
                "[[other::a(\"x\")]] [[b]] [[rc::c()]] int f(void);",
                "@c int f();",
            ),
            (
                "struct [[rc::a(\"x\")]] s { [[rc::f(\"y\")]] int a; };",
                "struct @a'x s{@f'y int a;};",
            ),
            ("union [[rc::a]] u;", "union @a u;"),
            ("enum [[rc::a]] e { A };", "enum @a e{A,};"),
            ("enum [[rc::a]] { A };", "enum @a {A,};"),
            (
                "int f(void) { [[rc::inv(\"x\")]] while (a) b; }",
                "define int f(){@inv'x while a b;}",
            ),
            (
                "int f(void) { [[rc::a]] int b; [[rc::c]] ; }",
                "define int f(){@a int b;@c ;}",
            ),
            (
                "int f(void) { if (a) [[rc::b]] c; else [[rc::d]] { } }",
                "define int f(){if a @b c;else @d {}}",
            ),
            (
                "int f(void) { for ([[rc::a]] int b; ; ) ; }",
                "define int f(){for(@a int b;||);}",
            ),
            (
                "int f(void) { switch (a) [[rc::b]] { case 1: [[rc::c]] ; } }",
                "define int f(){switch a @b {case 1:@c ;}}",
            ),
        ],
    )
}
