//! What the definitions give on worked rows: each clause is an equation that computes.

ghost use Rattle.std.specs.Prelude.{◌≡◌, codes, [], ◌∷◌, ◌++◌, Some, None};
ghost use Rattle.gb_defs.specs.Outcome.{outcome, Report, BadTable, BadGroup};
ghost use Rattle.gb_defs.specs.Table.{BadCell, NoHeader, Ragged, SameName};
ghost use Rattle.gb_defs.specs.Fault.{ColumnNotFound, Duplicate, InvalidOperation, OfSum};
ghost use Rattle.gb_defs.specs.Worked.{asked, ends_by_key, lists_by_date, sums_by_date, sums_by_key, sums_of_colon, keys_alone, keys_and_sum, by_day, two_workers, null_by};

/// The request that the words of a command line spell.
pub fn requests()
    ensures spelled { asked (codes "--by" ∷ codes "date"
        ∷ codes "--agg" ∷ codes "sum:temp" ∷ codes "--agg" ∷ codes "count:temp" ∷ [])
        ≡ Some sums_by_date }
    ensures colon { asked (codes "--by" ∷ codes "k" ∷ codes "--agg" ∷ codes "sum:a:b" ∷ [])
        ≡ Some sums_of_colon }
    ensures methods { asked (codes "--by" ∷ codes "k" ∷ codes "--agg" ∷ codes "min:v"
        ∷ codes "--agg" ∷ codes "max:v" ∷ codes "--agg" ∷ codes "first:v"
        ∷ codes "--agg" ∷ codes "last:v" ∷ codes "--agg" ∷ codes "valid:v" ∷ [])
        ≡ Some ends_by_key }
    ensures lists { asked (codes "--by" ∷ codes "date" ∷ codes "--agg" ∷ codes "groups"
        ∷ codes "--agg" ∷ codes "list:temp" ∷ codes "--agg" ∷ codes "n_unique:temp" ∷ [])
        ≡ Some lists_by_date }
    ensures groups_alone { asked (codes "--by" ∷ codes "k" ∷ codes "--agg" ∷ codes "groups:k" ∷ [])
        ≡ None }
    ensures command_alone { asked ([]) ≡ None }
    ensures no_value { asked (codes "--by" ∷ codes "k" ∷ codes "--agg" ∷ []) ≡ None }
    ensures unknown_method { asked (codes "--by" ∷ codes "k" ∷ codes "--agg" ∷ codes "total:v" ∷ [])
        ≡ None }
    ensures any_order { asked (codes "--explain" ∷ codes "--agg" ∷ codes "sum:v"
        ∷ codes "--workers" ∷ codes "2" ∷ codes "--by" ∷ codes "k" ∷ [])
        ≡ Some two_workers }
    ensures two_keys { asked (codes "--by" ∷ codes "k" ∷ codes "--agg" ∷ codes "sum:v"
        ∷ codes "--by" ∷ codes "j" ∷ [])
        ≡ Some (keys_and_sum (codes "k") (codes "j")) }
    ensures no_key { asked (codes "--agg" ∷ codes "sum:v" ∷ []) ≡ None }
    ensures out_of_range { asked (codes "--by" ∷ codes "k" ∷ codes "--workers" ∷ codes "65" ∷ [])
        ≡ None }
    ensures value_like_an_option { asked (codes "--null" ∷ codes "--by"
        ∷ codes "--by" ∷ codes "k" ∷ [])
        ≡ Some null_by }
{}

/// What a request makes of a table's text.
pub fn outcomes()
    ensures sums_and_counts { outcome sums_by_date
        (codes "date,temp:i64\n2020-08-21,20\n2020-08-21,10\n"
        ++ codes "2020-08-22,7\n2020-08-23,9\n2020-08-22,1\n")
        ≡ Report (codes "date:str,temp_sum:i64,temp_count:u32\n2020-08-21,30,2\n"
        ++ codes "2020-08-22,8,2\n2020-08-23,9,1\n") }
    ensures wide_keys { outcome sums_by_key (codes "k:i128,v:i32\n1,5\n4294967297,6\n1,7\n")
        ≡ Report (codes "k:i128,v_sum:i32\n1,12\n4294967297,6\n") }
    ensures sum_wraps { outcome sums_by_key (codes "k,v:i32\nx,2147483647\nx,1\n")
        ≡ Report (codes "k:str,v_sum:i32\nx,-2147483648\n") }
    ensures flag_keys { outcome sums_by_key (codes "k:bool,v:bool\ntrue,true\n,true\ntrue,true\n")
        ≡ Report (codes "k:bool,v_sum:u32\ntrue,2\n,1\n") }
    ensures nulls_as_keys { outcome sums_by_key (codes "k:null,v:i64\n,1\n,5\n")
        ≡ Report (codes "k:null,v_sum:i64\n,6\n") }
    ensures hundredths { outcome sums_by_key (codes "k:date,v:dec2\n-1,0.5\n-1,-.25\n")
        ≡ Report (codes "k:date,v_sum:dec2\n-1,0.25\n") }
    ensures categories { outcome sums_by_key (codes "k:cat,v:i64\nx,1\n,2\ny,5\nx,3\n")
        ≡ Report (codes "k:cat,v_sum:i64\nx,4\n,2\ny,5\n") }
    ensures null_is_a_group { outcome sums_by_key (codes "k,v:i64\n,5\n1,6\n,7\n")
        ≡ Report (codes "k:str,v_sum:i64\n,12\n1,6\n") }
    ensures number_key { outcome sums_by_key (codes "k:i64,v:i64\n,5\n1,6\n,7\n")
        ≡ Report (codes "k:i64,v_sum:i64\n,12\n1,6\n") }
    ensures ends { outcome ends_by_key (codes "k,v:i64\nx,3\ny,\nx,-1\n")
        ≡ Report (codes "k:str,v_min:i64,v_max:i64,v_first:i64,v_last:i64,v_count:u32\n"
        ++ codes "x,-1,3,3,-1,2\ny,,,,,0\n") }
    ensures lists { outcome lists_by_date
        (codes "date,temp:i32\n2020-08-21,20\n2020-08-21,10\n"
        ++ codes "2020-08-22,7\n2020-08-23,9\n2020-08-22,1\n")
        ≡ Report (codes "date:str,groups:list[u32],temp_agg_list:list[i32],temp_n_unique:u32\n"
        ++ codes "2020-08-21,\"[0,1]\",\"[20,10]\",2\n2020-08-22,\"[2,4]\",\"[7,1]\",2\n"
        ++ codes "2020-08-23,[3],[9],1\n") }
    ensures no_rows { outcome sums_by_key (codes "k,v:i64\n") ≡ Report (codes "k:str,v_sum:i64\n") }
    ensures sums_wrap { outcome sums_by_key (codes "k,v:i64\nx,9223372036854775807\nx,1\n")
        ≡ Report (codes "k:str,v_sum:i64\nx,-9223372036854775808\n") }
    ensures quoted { outcome sums_by_key (codes "k,v:i64\r\n\"x, y\",+2\r\n\"x, y\",-5\r\n")
        ≡ Report (codes "k:str,v_sum:i64\n\"x, y\",-3\n") }
    ensures two_keys { outcome (keys_and_sum (codes "a") (codes "b"))
        (codes "a,b,v:i64\nab,c,1\na,bc,2\nab,c,3\n")
        ≡ Report (codes "a:str,b:str,v_sum:i64\nab,c,4\na,bc,2\n") }
    ensures null_key_beside { outcome (keys_and_sum (codes "n") (codes "k"))
        (codes "n:null,k,v:i64\n,x,1\n,y,2\n,x,3\n")
        ≡ Report (codes "n:null,k:str,v_sum:i64\n,x,4\n,y,2\n") }
    ensures key_twice { outcome (keys_and_sum (codes "k") (codes "k")) (codes "k,v:i64\nx,1\n")
        ≡ BadGroup (Duplicate (codes "k")) }
    ensures bad_cell { outcome keys_alone (codes "k:i64\n12x\n") ≡ BadTable (BadCell 1 1) }
    ensures ragged { outcome keys_alone (codes "k\n1,2\n") ≡ BadTable (Ragged 1 2 1) }
    ensures same_name { outcome keys_alone (codes "a,a:i64\n") ≡ BadTable (SameName 2) }
    ensures no_header { outcome keys_alone (codes "") ≡ BadTable NoHeader }
    ensures header_from_the_left { outcome keys_alone (codes "k,k,v:i32\n")
        ≡ BadTable (SameName 2) }
    ensures first_bad_row { outcome keys_alone (codes "k,v:i64\na,1\nb\nc,x\n")
        ≡ BadTable (Ragged 2 1 2) }
    ensures other_word { outcome keys_alone (codes "k,x:foo\na,b\n") ≡ Report (codes "k:str\na\n") }
    ensures missing_key { outcome by_day (codes "date,temp:i64\n2020-08-21,20\n")
        ≡ BadGroup (ColumnNotFound (codes "day")) }
    ensures text_sum { outcome sums_by_key (codes "k,v\na,b\n")
        ≡ BadGroup (InvalidOperation OfSum (codes "v")) }
    ensures missing_column { outcome sums_by_key (codes "k\na\n")
        ≡ BadGroup (ColumnNotFound (codes "v")) }
{}
