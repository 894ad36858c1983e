//! The page for people, as HTML, made by tools/web_page of web/index.html. Change that.

pub(crate) const INDEX: &str = "\
<!DOCTYPE html>
<html lang=\"en\">
<head>
<meta charset=\"utf-8\">
<meta name=\"viewport\" content=\"width=device-width, initial-scale=1\">
<title>Newtiron</title>
<link rel=\"stylesheet\" href=\"/page.css\">
<script src=\"/page.js\" defer></script>
</head>
<body>
<header>
  <h1>Newtiron</h1>
  <form id=\"opening\" autocomplete=\"off\">
    <label>Institution <input id=\"name\" size=\"14\" maxlength=\"16\" spellcheck=\"false\" required autofocus></label>
    <label>Access token <input id=\"key\" type=\"password\" size=\"18\" autocomplete=\"off\" required></label>
    <button>Sign in</button>
  </form>
  <p id=\"session\" hidden><strong id=\"who\"></strong> <span id=\"when\"></span> <button id=\"out\">Sign out</button></p>
  <p id=\"state\" role=\"status\"></p>
</header>
<main>
  <div id=\"institution\" class=\"two\" hidden>
    <section>
      <div role=\"tablist\" aria-label=\"Lists\">
        <button role=\"tab\" id=\"worklist\" aria-controls=\"panel\">Worklist</button>
        <button role=\"tab\" id=\"steps\" aria-controls=\"panel\">Steps</button>
        <button role=\"tab\" id=\"studies\" aria-controls=\"panel\">Studies</button>
        <button role=\"tab\" id=\"new\" aria-controls=\"form\">New item</button>
      </div>
      <div id=\"panel\" role=\"tabpanel\">
        <details id=\"finding\">
        <summary>Search</summary>
        <form id=\"search\" role=\"search\" autocomplete=\"off\">
          <label>Name <input name=\"name\" type=\"search\" size=\"14\"></label>
          <label>Patient ID <input name=\"id\" type=\"search\" size=\"8\"></label>
          <label>Accession number <input name=\"accession\" type=\"search\" size=\"8\"></label>
          <label>Modality <input name=\"modality\" type=\"search\" size=\"4\" list=\"modalities\"></label>
          <label>Station <input name=\"station\" type=\"search\" size=\"8\"></label>
          <label>From <input name=\"from\" type=\"date\"></label>
          <label>to <input name=\"to\" type=\"date\"></label>
          <span><button>Search</button> <button type=\"button\" id=\"today\">Today</button> <button type=\"button\" id=\"days\">All days</button></span>
        </form>
        </details>
        <table role=\"table\"><caption></caption><thead role=\"rowgroup\"></thead><tbody role=\"rowgroup\"></tbody></table>
        <p id=\"pages\">
          <button id=\"up\">Up</button> <button id=\"back\">Previous</button> <span id=\"range\" role=\"status\"></span> <button id=\"next\">Next</button>
          <button id=\"again\">Refresh</button>
        </p>
      </div>
    </section>
    <section id=\"form\" aria-labelledby=\"heading\">
      <h2 id=\"heading\">New worklist item</h2>
      <form id=\"entry\" class=\"fields\" novalidate autocomplete=\"off\">
        <fieldset>
          <legend>Patient</legend>
          <label>Family name <input name=\"family\" maxlength=\"32\" pattern=\"[^\\^=]+\" required title=\"without ^ and =\"></label>
          <label>Given name <input name=\"given\" maxlength=\"31\" pattern=\"[^\\^=]+\" title=\"without ^ and =\"></label>
          <label>Patient ID <input name=\"00100020\" data-vr=\"LO\" maxlength=\"64\" required></label>
          <label>Birth date <input name=\"00100030\" data-vr=\"DA\" type=\"date\"></label>
          <label>Sex <select name=\"00100040\" data-vr=\"CS\"><option></option><option value=\"F\">female</option><option value=\"M\">male</option><option value=\"O\">other</option></select></label>
        </fieldset>
        <fieldset>
          <legend>Examination</legend>
          <label>Modality <input name=\"00080060\" data-vr=\"CS\" data-step maxlength=\"16\" pattern=\"[A-Za-z0-9_ ]+\" required list=\"modalities\" title=\"letters, digits, spaces and underscores\"></label>
          <label>Station AE title <input name=\"00400001\" data-vr=\"AE\" data-step maxlength=\"16\" required></label>
          <label>Start date <input name=\"00400002\" data-vr=\"DA\" data-step type=\"date\" required></label>
          <label>Start time <input name=\"00400003\" data-vr=\"TM\" data-step type=\"time\" step=\"any\" required></label>
          <label>Description <input name=\"00400007\" data-vr=\"LO\" data-step maxlength=\"64\"></label>
          <label>Accession number <input name=\"00080050\" data-vr=\"SH\" maxlength=\"16\"></label>
        </fieldset>
        <details>
          <summary>Identifiers</summary>
          <label>Step ID <input name=\"00400009\" data-vr=\"SH\" data-step maxlength=\"16\" required></label>
          <label>Requested procedure ID <input name=\"00401001\" data-vr=\"SH\" maxlength=\"16\" required></label>
          <label>Study Instance UID <input name=\"0020000D\" data-vr=\"UI\" maxlength=\"64\" pattern=\"[0-9.]+\" required title=\"digits and full stops\"></label>
          <button type=\"button\" id=\"propose\">Propose others</button>
        </details>
        <p id=\"answer\" role=\"alert\"></p>
        <button id=\"send\">Schedule</button> <button type=\"button\" id=\"clear\">Clear</button>
      </form>
      <datalist id=\"modalities\"><option>CR<option>CT<option>DX<option>ES<option>MG<option>MR<option>NM<option>OT<option>PT<option>RF<option>US<option>XA</datalist>
    </section>
  </div>
  <div id=\"operation\" class=\"two\" hidden>
    <section>
      <h2>The server</h2>
      <dl id=\"metrics\"></dl>
      <button id=\"measure\">Refresh</button>
    </section>
    <section>
      <h2>Backup</h2>
      <form id=\"backup\" class=\"fields\" novalidate autocomplete=\"off\">
        <label>Path on the server <input id=\"path\" maxlength=\"4000\" required></label>
        <p id=\"copied\" role=\"alert\"></p>
        <button>Copy all rows</button>
      </form>
    </section>
  </div>
  <section id=\"counts\" aria-label=\"How much is kept\"></section>
</main>
<dialog id=\"question\" aria-labelledby=\"asked\">
  <p id=\"asked\"></p>
  <button id=\"yes\"></button> <button id=\"no\" autofocus>Cancel</button>
</dialog>
</body>
</html>
";
